// Opening a table, and its first level. That the cells stay over the lent memory is a clause of
// each call: the cells themselves do not tell which that is.
ghost use Rattle.std.specs.Prelude.{◌≡◌, map, length, None};
ghost use Rattle.facts.specs.Outcomes.{Answered, HandedOn, Changed};
ghost use Rattle.figures.specs.Fields.{Field};
ghost use Rattle.cells.specs.Renewal.{Renewal};
ghost use Rattle.cells.specs.Rooms.{needed, room_refusal};
ghost use Rattle.table.specs.Fillings.{Blank, Cleared, FilledTo};
ghost use Rattle.table.specs.Refusing.{open_refusal};
ghost use Rattle.table.specs.Singles.{of_singles};

use crate::clearing::clear;
use crate::singles::seat_singles;
use crate::stages::{Empty, LevelFilled};
use algebra::algebra::Algebra;
use cells::container::Cells;
use cells::room::{check_room, needed_for};
use facts::refusals::Refusal;
use facts::refused::Refused;
use facts::sizes::FieldSize;
use std::marker::PhantomData;

impl<V: Algebra> Empty<V> {
    // A table of n entrants, all its cells nothing.
    pub fn open(n: usize, cells: &mut Cells<V>) -> Result<Empty<V>, Refusal>
        ensures is_of_that_size_or_the_first_refusal { Answered (open_refusal n (length cells.old.memory.now)) (λ e. e.size.entrants ≡ n) result }
        ensures clears_the_needed_cells_or_changes_nothing { Changed (open_refusal n (length cells.old.memory.now)) (Cleared V.Algebra.semiring V.Algebra.means (needed n)) cells.old.memory.now cells.new.memory.now }
        ensures stays_over_that_memory { cells.new.memory.ghost_name ≡ cells.old.memory.ghost_name }
    {
        let size = FieldSize::try_from(n)?;
        check_room(size, cells.memory.len())?;
        clear(cells.memory, needed_for(size));
        Ok(Empty {
            size,
            algebra: PhantomData,
        })
    }

    // Moves to level 0: the cell of each single entrant becomes one.
    pub fn start(self, cells: &mut Cells<V>) -> Result<LevelFilled<V>, Refused<Empty<V>>>
        ensures moves_to_level_nought_or_hands_the_stage_back { HandedOn (room_refusal self.size.entrants (length cells.old.memory.now)) (λ l. (l.size ≡ self.size) × (l.level ≡ 0)) self result }
        ensures seats_the_single_entrants_or_changes_nothing { Changed (room_refusal self.size.entrants (length cells.old.memory.now)) (Renewal V.Algebra.semiring V.Algebra.means self.size.entrants (of_singles self.size.entrants) (λ _ _. V.Algebra.semiring.one)) cells.old.memory.now cells.new.memory.now }
        ensures cells_that_were_nothing_have_their_first_level { (f : Field) → f.size ≡ self.size.entrants → room_refusal self.size.entrants (length cells.old.memory.now) ≡ None → Blank V.Algebra.semiring (needed self.size.entrants) (map V.Algebra.means cells.old.memory.now) → FilledTo V.Algebra.semiring f 0 (map V.Algebra.means cells.new.memory.now) }
        ensures stays_over_that_memory { cells.new.memory.ghost_name ≡ cells.old.memory.ghost_name }
    {
        let size = self.size;
        check_room(size, cells.memory.len()).map_err(|refusal| Refused {
            moved: self,
            refusal,
        })?;
        seat_singles(cells.memory, size);
        Ok(LevelFilled {
            size,
            level: 0,
            algebra: PhantomData,
        })
    }
}
