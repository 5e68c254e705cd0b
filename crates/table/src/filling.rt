// Filling a table level by level, and finishing it. That the cells stay over the lent memory is a clause of
// each call: the cells themselves do not tell which that is.
ghost use Rattle.std.specs.Prelude.{◌≡◌, ◌+◌, ◌^◌, List, map, length, None};
ghost use Rattle.facts.specs.Outcomes.{HandedOn, Changed};
ghost use Rattle.figures.specs.Fields.{Field, field_of};
ghost use Rattle.figures.specs.Figures.{by_halves};
ghost use Rattle.cells.specs.Renewal.{Renewal, cell_of, of_level};
ghost use Rattle.table.specs.Fillings.{FilledTo, InOrder};
ghost use Rattle.table.specs.Refusing.{fill_refusal, finish_refusal};

use crate::stages::{Complete, LevelFilled};
use algebra::algebra::Algebra;
use cells::container::Cells;
use facts::refusals::Refusal;
use facts::refused::Refused;
use sources::source::MatchSource;
use std::marker::PhantomData;

impl<V: Algebra> LevelFilled<V> {
    // The members' cells of all sets of twice as many entrants become their sums by halves.
    pub fn fill<S: MatchSource>(
        self,
        source: &S,
        cells: &mut Cells<V>,
    ) -> Result<LevelFilled<V>, Refused<LevelFilled<V>>>
        ensures moves_to_the_next_level_or_hands_the_stage_back { HandedOn (fill_refusal self.size.entrants self.level (S.MatchSource.sheet source.now).size (length cells.old.memory.now)) (λ l. (l.size ≡ self.size) × (l.level ≡ self.level + 1)) self result }
        ensures fills_that_level_alone_or_changes_nothing { Changed (fill_refusal self.size.entrants self.level (S.MatchSource.sheet source.now).size (length cells.old.memory.now)) (Renewal V.Algebra.semiring V.Algebra.means self.size.entrants (of_level self.size.entrants (2 ^ (self.level + 1)) 0) (by_halves V.Algebra.semiring (field_of (S.MatchSource.sheet source.now)) (cell_of V.Algebra.semiring self.size.entrants (map V.Algebra.means cells.old.memory.now)))) cells.old.memory.now cells.new.memory.now }
        ensures levels_that_mean_their_figures_gain_one { fill_refusal self.size.entrants self.level (S.MatchSource.sheet source.now).size (length cells.old.memory.now) ≡ None → FilledTo V.Algebra.semiring (field_of (S.MatchSource.sheet source.now)) self.level (map V.Algebra.means cells.old.memory.now) → FilledTo V.Algebra.semiring (field_of (S.MatchSource.sheet source.now)) (self.level + 1) (map V.Algebra.means cells.new.memory.now) }
        ensures stays_over_that_memory { cells.new.memory.ghost_name ≡ cells.old.memory.ghost_name }
    {
        let (size, level) = (self.size, self.level);
        if source.size() != size.entrants() {
            return Err(Refused {
                moved: self,
                refusal: Refusal::SizesDiffer,
            });
        }
        cells.refresh(source, level, 0).map_err(|refusal| Refused {
            moved: self,
            refusal,
        })?;
        Ok(LevelFilled {
            size,
            level: level + 1,
            algebra: PhantomData,
        })
    }

    // The last level moves to the complete table.
    pub fn finish(self) -> Result<Complete<V>, Refused<LevelFilled<V>>>
        ensures completes_the_table_or_hands_the_stage_back { HandedOn (finish_refusal self.size.entrants self.level) (λ c. c.size ≡ self.size) self result }
        ensures all_levels_that_mean_their_figures_are_a_table_in_order { (f : Field) (cells : List V.Algebra.Meaning) → f.size ≡ self.size.entrants → finish_refusal self.size.entrants self.level ≡ None → FilledTo V.Algebra.semiring f self.level cells → InOrder V.Algebra.semiring f cells }
    {
        if 1 << self.level < self.size.entrants() {
            return Err(Refused {
                moved: self,
                refusal: Refusal::LevelMissing,
            });
        }
        Ok(Complete {
            size: self.size,
            algebra: PhantomData,
        })
    }
}
