// A matrix of results: of each two entrants one wins for certain.
ghost use Rattle.std.specs.Prelude.{◌≡◌};
ghost use Rattle.sources.specs.Answers.{Opened};
ghost use Rattle.sources.specs.Matrices.{result as result_facts, certain, matrix_sheet, lower_wins_all};
ghost use Rattle.sources.specs.Lawfulness.{one_wins, certain_back};

use crate::kept::Kept;
use crate::place::turned_to;
use crate::square::Square;
use facts::prices::{Fact, is_free};
use facts::refusals::Refusal;

// Which of two entrants wins.
#[derive(Clone, Copy, PartialEq, Eq, Debug)]
pub enum Winner {
    Lower,
    Higher,
}

pub type ResultMatrix = Square<Winner>;

impl ResultMatrix {
    // A matrix in which the lower number wins every match.
    pub fn lower_always_wins(size: usize) -> Result<ResultMatrix, Refusal>
        ensures lower_numbers_win_or_the_size_is_refused { Opened (λ m. matrix_sheet m.size.entrants m.kept) size (lower_wins_all size) result }
    {
        Square::alike(size, Winner::Lower)
    }
}

impl Kept for Winner {
    ghost told = { result_facts };

    ghost carried = { λ a b. certain };

    ghost told_allowed = { one_wins };

    ghost carried_either_way = { λ a b. certain_back };

    fn facts(self) -> (Fact, Fact) {
        match self {
            Winner::Lower => (Some(0), None),
            Winner::Higher => (None, Some(0)),
        }
    }

    fn carries(_a: usize, _b: usize, facts: (Fact, Fact)) -> bool {
        matches!(facts, (Some(price), None) | (None, Some(price)) if price == 0)
    }

    fn of(a: usize, b: usize, facts: (Fact, Fact)) -> Winner {
        let (lower, _) = turned_to(a, b, facts);
        if is_free(lower) {
            Winner::Lower
        } else {
            Winner::Higher
        }
    }
}
