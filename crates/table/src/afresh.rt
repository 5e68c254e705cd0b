// A whole table, worked out afresh. That the cells stay over the lent memory is a clause of
// each call: the cells themselves do not tell which that is.
ghost use Rattle.std.specs.Prelude.{◌≡◌, map, length};
ghost use Rattle.facts.specs.Outcomes.{Answered, Changed};
ghost use Rattle.figures.specs.Fields.{Field, field_of};
ghost use Rattle.cells.specs.Rooms.{needed, room_refusal};
ghost use Rattle.table.specs.Fillings.{FilledTo, InOrder, TailKept};
ghost use Rattle.table.specs.Refusing.{open_refusal};

use crate::stages::{Complete, Empty, LevelFilled};
use algebra::algebra::Algebra;
use cells::container::Cells;
use facts::refusals::Refusal;
use sources::source::MatchSource;

// A table of n entrants whose first level is filled, whatever the field.
fn begin<V: Algebra>(n: usize, cells: &mut Cells<V>) -> Result<LevelFilled<V>, Refusal>
    ensures is_at_level_nought_or_the_first_refusal { Answered (open_refusal n (length cells.old.memory.now)) (λ l. (l.size.entrants ≡ n) × (l.level ≡ 0)) result }
    ensures has_the_first_level_of_every_field_or_changes_nothing { Changed (open_refusal n (length cells.old.memory.now)) (λ before after. ((f : Field) → f.size ≡ n → FilledTo V.Algebra.semiring f 0 (map V.Algebra.means after)) × TailKept (needed n) before after) cells.old.memory.now cells.new.memory.now }
    ensures stays_over_that_memory { cells.new.memory.ghost_name ≡ cells.old.memory.ghost_name }
{
    let empty = Empty::open(n, cells)?;
    Ok(empty.start(cells)?)
}

// Opens, starts, fills and finishes a table of the source's field: every needed cell becomes its
// figure, whatever stood there.
pub fn fill_afresh<V: Algebra, S: MatchSource>(
    source: &S,
    cells: &mut Cells<V>,
) -> Result<Complete<V>, Refusal>
    ensures is_complete_or_the_refusal { Answered (room_refusal (S.MatchSource.sheet source.now).size (length cells.old.memory.now)) (λ c. c.size.entrants ≡ (S.MatchSource.sheet source.now).size) result }
    ensures every_needed_cell_means_its_figure_or_nothing_changed { Changed (room_refusal (S.MatchSource.sheet source.now).size (length cells.old.memory.now)) (λ before after. InOrder V.Algebra.semiring (field_of (S.MatchSource.sheet source.now)) (map V.Algebra.means after) × TailKept (needed (S.MatchSource.sheet source.now).size) before after) cells.old.memory.now cells.new.memory.now }
    ensures stays_over_that_memory { cells.new.memory.ghost_name ≡ cells.old.memory.ghost_name }
{
    let n = source.size();
    let mut stage = begin(n, cells)?;
    // a legal size is a power of two, and so has as many levels to fill as zeros at its low end
    for _ in 0..n.trailing_zeros() {
        stage = stage.fill(source, cells)?;
    }
    Ok(stage.finish()?)
}
