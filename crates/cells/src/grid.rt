// The weights of all wins, as one level of the table needs them: each pairing of the source is asked
// once, and its two facts are taken apart.
ghost use Rattle.std.specs.Prelude.{◌≡◌, ◌+◌, ◌*◌, ◌<◌, map};
ghost use Rattle.figures.specs.Fields.{field_of};
ghost use Rattle.cells.specs.Renewal.{Weighed};
ghost use Rattle.cells.specs.Asking.{WeighedBelow};

use algebra::algebra::Algebra;
use sources::source::MatchSource;

// The weights of a over b and of b over a. Nobody is asked about himself.
fn weights_of<V: Algebra, S: MatchSource>(source: &S, a: usize, b: usize) -> (V, V)
    ensures forth { V.Algebra.means result.0 ≡ V.Algebra.semiring.weight ((S.MatchSource.sheet source.now).beats a b) }
    ensures back { V.Algebra.means result.1 ≡ V.Algebra.semiring.weight ((S.MatchSource.sheet source.now).beats b a) }
{
    if a == b {
        return (V::nothing(), V::nothing());
    }
    let (forth, back) = source.pairing(a, b);
    (V::weight(forth), V::weight(back))
}

// Asks about an entrant and those from him on. The weight of a over b stands in row a, sixteen to a
// row.
fn ask_row<V: Algebra, S: MatchSource>(source: &S, grid: &mut [V; 256], a: usize)
    requires is_an_entrant { a < (S.MatchSource.sheet source.now).size }
    requires rows_before_are_weighed { WeighedBelow V.Algebra.semiring (field_of (S.MatchSource.sheet source.now)) (map V.Algebra.means grid.old) (a * 16 + a) }
    ensures weighs_one_row_more { WeighedBelow V.Algebra.semiring (field_of (S.MatchSource.sheet source.now)) (map V.Algebra.means grid.new) ((a + 1) * 16 + (a + 1)) }
{
    for b in a..source.size() {
        let (forth, back) = weights_of(source, a, b);
        grid[a * 16 + b] = forth;
        grid[b * 16 + a] = back;
    }
}

// Fills the grid with the weights of every win.
pub(crate) fn level_grid<V: Algebra, S: MatchSource>(source: &S, grid: &mut [V; 256])
    ensures weighs_every_win { Weighed V.Algebra.semiring (field_of (S.MatchSource.sheet source.now)) (map V.Algebra.means grid.new) }
{
    for a in 0..source.size() {
        ask_row(source, grid, a);
    }
}
