// What a complete table of any algebra is asked. A question is shown the cells as every call is, for
// writing (a rule of this project), so each promises for itself that nothing changed. That the cells
// stay over the memory that was lent is a clause too: which memory that was, the cells themselves do
// not tell.
ghost use Rattle.std.specs.Prelude.{◌≡◌, map, length};
ghost use Rattle.facts.specs.Outcomes.{Answered};
ghost use Rattle.figures.specs.Fields.{Field};
ghost use Rattle.figures.specs.Figures.{figure as figure_of};
ghost use Rattle.cells.specs.Renewal.{cell_of};
ghost use Rattle.cells.specs.Rooms.{room_refusal};
ghost use Rattle.table.specs.Fillings.{InOrder};
ghost use Rattle.table.specs.Questions.{OfAll, everybody, tally_of};
ghost use Rattle.table.specs.Refusing.{figure_refusal};

use crate::stages::Complete;
use algebra::algebra::Algebra;
use cells::container::Cells;
use cells::place::index_of;
use cells::room::check_room;
use facts::refusals::Refusal;

impl<V: Algebra> Complete<V> {
    // The cells of the set of all, one for each entrant.
    pub(crate) fn final_cells<'c>(&self, cells: &'c Cells<V>) -> Result<&'c [V], Refusal>
        ensures are_those_of_all_or_the_memory_is_too_short { Answered (room_refusal self.now.size.entrants (length cells.now.memory.now)) (λ row. OfAll V.Algebra.semiring V.Algebra.means self.now.size.entrants cells.now.memory.now row.now) result }
    {
        check_room(self.size, cells.memory.len())?;
        let n = self.size.entrants();
        Ok(&cells.memory[index_of(n, (1 << n) - 1, 0)..][..n])
    }

    // The figure of an entrant: his cell in the set of all.
    pub fn figure(&self, cells: &mut Cells<V>, entrant: usize) -> Result<V, Refusal>
        ensures means_what_his_cell_does_or_is_the_first_refusal { Answered (figure_refusal self.now.size.entrants (length cells.old.memory.now) entrant) (λ v. V.Algebra.means v ≡ cell_of V.Algebra.semiring self.now.size.entrants (map V.Algebra.means cells.old.memory.now) (everybody self.now.size.entrants) entrant) result }
        ensures on_a_table_in_order_means_his_figure { (f : Field) → f.size ≡ self.now.size.entrants → InOrder V.Algebra.semiring f (map V.Algebra.means cells.old.memory.now) → Answered (figure_refusal self.now.size.entrants (length cells.old.memory.now) entrant) (λ v. V.Algebra.means v ≡ figure_of V.Algebra.semiring f (everybody f.size) entrant) result }
        ensures changes_nothing { cells.new.memory.now ≡ cells.old.memory.now }
        ensures stays_over_that_memory { cells.new.memory.ghost_name ≡ cells.old.memory.ghost_name }
    {
        let all = self.final_cells(cells)?;
        all.get(entrant).copied().ok_or(Refusal::EntrantUnknown)
    }

    // The sum of all entrants' figures.
    pub fn tally(&self, cells: &mut Cells<V>) -> Result<V, Refusal>
        ensures means_the_sum_of_all_cells_or_is_the_refusal { Answered (room_refusal self.now.size.entrants (length cells.old.memory.now)) (λ v. V.Algebra.means v ≡ tally_of V.Algebra.semiring self.now.size.entrants (cell_of V.Algebra.semiring self.now.size.entrants (map V.Algebra.means cells.old.memory.now))) result }
        ensures on_a_table_in_order_means_the_sum_of_all_figures { (f : Field) → f.size ≡ self.now.size.entrants → InOrder V.Algebra.semiring f (map V.Algebra.means cells.old.memory.now) → Answered (room_refusal self.now.size.entrants (length cells.old.memory.now)) (λ v. V.Algebra.means v ≡ tally_of V.Algebra.semiring f.size (figure_of V.Algebra.semiring f)) result }
        ensures changes_nothing { cells.new.memory.now ≡ cells.old.memory.now }
        ensures stays_over_that_memory { cells.new.memory.ghost_name ≡ cells.old.memory.ghost_name }
    {
        let all = self.final_cells(cells)?;
        Ok(all.iter().fold(V::nothing(), |sum, cell| sum.plus(*cell)))
    }
}
