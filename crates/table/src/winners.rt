// Who can win at all, from a complete table of possibilities. As every question, it is shown the cells
// for writing (a rule of this project), and so promises that nothing changed and that they stay over
// the lent memory.
ghost use Rattle.std.specs.Prelude.{◌≡◌, ◌≤◌, false, map, length, slice_index_or};
ghost use Rattle.facts.specs.Outcomes.{Answered};
ghost use Rattle.algebra.specs.Possibilities.{possibilities};
ghost use Rattle.figures.specs.Fields.{Field};
ghost use Rattle.figures.specs.Figures.{figure as figure_of};
ghost use Rattle.cells.specs.Renewal.{cell_of};
ghost use Rattle.table.specs.Fillings.{InOrder};
ghost use Rattle.table.specs.Questions.{set_of, winners_of};
ghost use Rattle.table.specs.Refusing.{winners_refusal};

use crate::stages::Complete;
use algebra::possibility::Possibility;
use cells::container::Cells;
use facts::refusals::Refusal;

// Every entrant's figure is looked at in turn, by his number (a rule of this project).
fn collect_winners(figures: &[Possibility]) -> u32
    requires { length figures.now ≤ 16 }
    ensures are_those_whose_figures_mean_yes { result ≡ set_of (length figures.now) (λ w. slice_index_or (map (λ p. p.possible) figures.now) w false) }
{
    let mut winners = 0;
    for (entrant, figure) in figures.iter().enumerate() {
        if figure.is_possible() {
            winners += 1 << entrant;
        }
    }
    winners
}

impl Complete<Possibility> {
    // The set of those who can win, as its number.
    pub fn winners(&self, cells: &mut Cells<Possibility>) -> Result<u32, Refusal>
        ensures are_those_whose_cells_mean_yes_or_the_first_refusal { Answered (winners_refusal self.now.size.entrants (length cells.old.memory.now) (winners_of self.now.size.entrants (cell_of possibilities self.now.size.entrants (map (λ p. p.possible) cells.old.memory.now)))) (λ s. s ≡ winners_of self.now.size.entrants (cell_of possibilities self.now.size.entrants (map (λ p. p.possible) cells.old.memory.now))) result }
        ensures on_a_table_in_order_are_those_who_can_win { (f : Field) → f.size ≡ self.now.size.entrants → InOrder possibilities f (map (λ p. p.possible) cells.old.memory.now) → Answered (winners_refusal f.size (length cells.old.memory.now) (winners_of f.size (figure_of possibilities f))) (λ s. s ≡ winners_of f.size (figure_of possibilities f)) result }
        ensures changes_nothing { cells.new.memory.now ≡ cells.old.memory.now }
        ensures stays_over_that_memory { cells.new.memory.ghost_name ≡ cells.old.memory.ghost_name }
    {
        match collect_winners(self.final_cells(cells)?) {
            0 => Err(Refusal::NobodyCanWin),
            winners => Ok(winners),
        }
    }
}
