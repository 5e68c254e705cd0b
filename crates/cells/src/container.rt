// The cells of a table, over memory that is lent. That they stay over it is a clause of each call that
// is shown them: which memory was lent, the cells themselves do not tell.
ghost use Rattle.std.specs.Prelude.{◌≡◌, ◌+◌, ◌^◌, map, length};
ghost use Rattle.facts.specs.Outcomes.{Changed, decided};
ghost use Rattle.figures.specs.Fields.{field_of};
ghost use Rattle.figures.specs.Figures.{by_halves};
ghost use Rattle.cells.specs.Renewal.{Renewal, cell_of, of_level};
ghost use Rattle.cells.specs.Rooms.{needed_by, refresh_refusal};

use crate::grid::level_grid;
use crate::refresh::refresh_level;
use crate::room::{check_room, needed_for};
use algebra::algebra::Algebra;
use facts::refusals::Refusal;
use facts::sizes::FieldSize;
use sources::source::MatchSource;

// How many cells a table of n entrants needs.
pub fn cells_needed(n: usize) -> Result<usize, Refusal>
    ensures is_one_for_each_set_and_entrant_or_the_size_is_refused { result ≡ needed_by n }
{
    Ok(needed_for(FieldSize::try_from(n)?))
}

fn check_refresh(size: FieldSize, count: usize, level: u32) -> Result<(), Refusal>
    ensures refuses_by_the_first_reason { result ≡ decided (refresh_refusal size.entrants count level) }
{
    check_room(size, count)?;
    // 2^r entrants play r rounds
    if level >= size.entrants().trailing_zeros() {
        return Err(Refusal::LevelsAllFilled);
    }
    Ok(())
}

#[derive(Drop)]
pub struct Cells<'a, V: Algebra> {
    // The cell of set s and entrant w, among n entrants, has the index s * n + w.
    pub memory: &'a mut [V],
    // The weights of the wins while a level is worked out. An array made in a generic function cannot
    // be lent there, since its size is not known to fit the address space; so it stands here. It is
    // one row of 256 and not sixteen rows, each of whose lengths would have to be stated.
    grid: [V; 256],
}

impl<'a, V: Algebra> Cells<'a, V> {
    pub fn over(memory: &'a mut [V]) -> Cells<'a, V>
        ensures holds_that_memory { result.memory.now ≡ memory.old }
        ensures is_over_that_memory { result.memory.ghost_name ≡ memory.entry.ghost_name }
    {
        Cells {
            memory,
            grid: [V::nothing(); 256],
        }
    }

    // The members' cells of every set of 2^(level + 1) entrants that holds all of must become their
    // sums by halves.
    pub fn refresh<S: MatchSource>(
        &mut self,
        source: &S,
        level: u32,
        must: u32,
    ) -> Result<(), Refusal>
        ensures answers_by_the_first_refusal { result ≡ decided (refresh_refusal (S.MatchSource.sheet source.now).size (length self.old.memory.now) level) }
        ensures renews_those_cells_alone_or_changes_nothing { Changed (refresh_refusal (S.MatchSource.sheet source.now).size (length self.old.memory.now) level) (Renewal V.Algebra.semiring V.Algebra.means (S.MatchSource.sheet source.now).size (of_level (S.MatchSource.sheet source.now).size (2 ^ (level + 1)) must) (by_halves V.Algebra.semiring (field_of (S.MatchSource.sheet source.now)) (cell_of V.Algebra.semiring (S.MatchSource.sheet source.now).size (map V.Algebra.means self.old.memory.now)))) self.old.memory.now self.new.memory.now }
        ensures stays_over_that_memory { self.new.memory.ghost_name ≡ self.old.memory.ghost_name }
    {
        let size = FieldSize::try_from(source.size())?;
        check_refresh(size, self.memory.len(), level)?;
        let Cells { memory, grid } = self;
        level_grid(source, grid);
        refresh_level(memory, grid, size, 2 << level, must);
        Ok(())
    }
}
