// Refreshing cells of a table from the cells of smaller sets.
ghost use Rattle.std.specs.Prelude.{◌≡◌, ℕ, ◌^◌, ◌<◌, ◌≤◌, true, map, length, slice_index_or};
ghost use Rattle.figures.specs.Sets.{has};
ghost use Rattle.cells.specs.Renewal.{cell_of, weight_of, Renewal, of_set, wanted, Refreshed};
ghost use Rattle.cells.specs.Rooms.{needed};
ghost use Rattle.cells.specs.Splits.{lost_to, won, won_of_split, sum_of};

use crate::halves::{Half, Halves};
use crate::place::index_of;
use algebra::algebra::Algebra;
use facts::sizes::FieldSize;
use figures::sets::{Members, holds};

// What a cell is worked out from: the cells of smaller sets, and the weights of all wins. Entrants and
// sets are numbers here, of which each method asks that they are in the field: types for them would
// need their field in them.
#[derive(Drop)]
struct Below<'a, V: Algebra> {
    cells: &'a [V],
    // The weight of w over b has the index w * 16 + b, as in the grid that is lent. No proof knows the length of
    // an array behind a field, so that it stands as a fact.
    weights: &'a [V],
    size: FieldSize,
    ghost cells_fit: { needed size.entrants ≤ length cells.now },
    ghost weights_fit: { length weights.now ≡ 256 },
}

impl<'a, V: Algebra> Below<'a, V> {
    #[inline]
    fn cell(&self, set: u32, entrant: usize) -> V
        requires is_a_set { set < 2 ^ self.now.size.entrants }
        requires is_an_entrant { entrant < self.now.size.entrants }
        ensures means_that_cell { V.Algebra.means result ≡ cell_of V.Algebra.semiring self.now.size.entrants (map V.Algebra.means self.now.cells.now) set entrant }
    {
        self.cells[index_of(self.size.entrants(), set, entrant)]
    }

    #[inline]
    fn weight(&self, winner: usize, loser: usize) -> V
        requires is_an_entrant { winner < self.now.size.entrants }
        requires is_another { loser < self.now.size.entrants }
        ensures means_that_weight { V.Algebra.means result ≡ weight_of V.Algebra.semiring (map V.Algebra.means self.now.weights.now) winner loser }
    {
        self.weights[winner * 16 + loser]
    }

    // The winner beats whoever comes out of the rest. A loop and no `fold`: what a closure may be
    // called with, that a loser is in the field, would have to be stated of each member.
    #[inline]
    fn beaten(&self, rest: u32, winner: usize) -> V
        requires is_a_set { rest < 2 ^ self.now.size.entrants }
        requires is_an_entrant { winner < self.now.size.entrants }
        ensures is_the_sum_over_the_losers { V.Algebra.means result ≡ lost_to V.Algebra.semiring (weight_of V.Algebra.semiring (map V.Algebra.means self.now.weights.now)) self.now.size.entrants (cell_of V.Algebra.semiring self.now.size.entrants (map V.Algebra.means self.now.cells.now)) rest winner }
    {
        let mut sum = V::nothing();
        for loser in Members::of(rest) {
            sum = sum.plus(self.cell(rest, loser).times(self.weight(winner, loser)));
        }
        sum
    }

    // What the winner has from a half against the rest: nothing where he is not in the half. His cell
    // is the same against every loser, so it multiplies their sum and not each of them.
    #[inline]
    fn win(&self, half: u32, rest: u32, winner: usize) -> V
        requires half_is_a_set { half < 2 ^ self.now.size.entrants }
        requires rest_is_a_set { rest < 2 ^ self.now.size.entrants }
        requires is_an_entrant { winner < self.now.size.entrants }
        ensures is_what_that_half_gives { V.Algebra.means result ≡ won V.Algebra.semiring (weight_of V.Algebra.semiring (map V.Algebra.means self.now.weights.now)) self.now.size.entrants (cell_of V.Algebra.semiring self.now.size.entrants (map V.Algebra.means self.now.cells.now)) half rest winner }
    {
        if holds(half, winner) {
            self.cell(half, winner).times(self.beaten(rest, winner))
        } else {
            V::nothing()
        }
    }

    // What a member has of a split: he comes out of the side that holds him, and beats whoever comes
    // out of the other.
    #[inline]
    fn win_of_split(&self, half: Half, winner: usize) -> V
        requires half_is_a_set { half.set < 2 ^ self.now.size.entrants }
        requires rest_is_a_set { half.rest < 2 ^ self.now.size.entrants }
        requires is_an_entrant { winner < self.now.size.entrants }
        ensures is_what_his_side_gives { V.Algebra.means result ≡ won_of_split V.Algebra.semiring (weight_of V.Algebra.semiring (map V.Algebra.means self.now.weights.now)) self.now.size.entrants (cell_of V.Algebra.semiring self.now.size.entrants (map V.Algebra.means self.now.cells.now)) half.set half.rest winner }
    {
        if holds(half.set, winner) {
            self.win(half.set, half.rest, winner)
        } else {
            self.win(half.rest, half.set, winner)
        }
    }

    // The sum of each member of a set, at his number. The halves that hold one entrant are one side of
    // each split, so every split comes once and serves the members of both its sides.
    fn sums_of(&self, set: u32) -> [V; 16]
        requires is_a_set { set < 2 ^ self.now.size.entrants }
        ensures are_sixteen { length result ≡ 16 }
        ensures are_the_sums_of_the_members { (w : ℕ) → has set w ≡ true → slice_index_or (map V.Algebra.means result) w V.Algebra.semiring.nothing ≡ sum_of V.Algebra.semiring V.Algebra.means self.now.size.entrants self.now.weights.now self.now.cells.now set w }
    {
        let mut sums = [V::nothing(); 16];
        let first = set.trailing_zeros();
        for half in Halves::of(set, first) {
            for winner in Members::of(set) {
                sums[winner] = sums[winner].plus(self.win_of_split(half, winner));
            }
        }
        sums
    }
}

// Each cell of a set becomes its sum. Cells that are written are lent as a slice, by a rule of this
// project; so each function that writes them states that they fit.
fn refresh_set<V: Algebra>(memory: &mut [V], weights: &[V; 256], size: FieldSize, set: u32)
    requires cells_fit { needed size.entrants ≤ length memory.old }
    requires is_a_set { set < 2 ^ size.entrants }
    ensures each_member_has_his_sum_and_no_other_cell_changes { Renewal V.Algebra.semiring V.Algebra.means size.entrants (of_set set) (sum_of V.Algebra.semiring V.Algebra.means size.entrants weights.now memory.old) memory.old memory.new }
{
    let below = Below {
        cells: memory,
        weights,
        size,
    };
    let sums = below.sums_of(set);
    for entrant in Members::of(set) {
        memory[index_of(size.entrants(), set, entrant)] = sums[entrant];
    }
}

// Whether a set has so many members, all of must among them.
fn is_wanted(set: u32, size: u32, must: u32) -> bool
    ensures says_whether_it_is_wanted { result ≡ wanted size must set }
{
    set.count_ones() == size && set & must == must
}

// Each cell of each set of so many members that holds all of must becomes its sum. A sum reads only
// cells of smaller sets, so the order of the sets does not matter.
pub(crate) fn refresh_level<V: Algebra>(
    memory: &mut [V],
    weights: &[V; 256],
    size: FieldSize,
    members: u32,
    must: u32,
)
    requires cells_fit { needed size.entrants ≤ length memory.old }
    ensures renews_the_sets_of_that_size_alone { Refreshed V.Algebra.semiring V.Algebra.means size.entrants members must weights.now memory.old memory.new }
{
    for set in 0..1 << size.entrants() {
        if is_wanted(set, members, must) {
            refresh_set(memory, weights, size, set);
        }
    }
}
