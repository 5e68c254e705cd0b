// A strength order: the lower number is the stronger and always wins free; the weaker never wins,
// unless an upset is marked, and then he wins free too.
ghost use Rattle.std.specs.Prelude.{◌≡◌};
ghost use Rattle.sources.specs.Answers.{Opened};
ghost use Rattle.sources.specs.Orders.{standing, ranked, order_sheet, no_upsets};
ghost use Rattle.sources.specs.Lawfulness.{stronger_wins, ranked_back};

use crate::kept::Kept;
use crate::place::turned_to;
use crate::square::Square;
use facts::prices::{Fact, is_free};
use facts::refusals::Refusal;

// Whether the weaker of two entrants can win too.
#[derive(Clone, Copy, PartialEq, Eq, Debug)]
pub enum Upset {
    Marked,
    Unmarked,
}

pub type StrengthOrder = Square<Upset>;

impl StrengthOrder {
    // An order in which no upset is marked.
    pub fn without_upsets(size: usize) -> Result<StrengthOrder, Refusal>
        ensures no_upset_is_marked_or_the_size_is_refused { Opened (λ o. order_sheet o.size.entrants o.kept) size (no_upsets size) result }
    {
        Square::alike(size, Upset::Unmarked)
    }
}

impl Kept for Upset {
    ghost told = { standing };

    ghost carried = { ranked };

    ghost told_allowed = { stronger_wins };

    ghost carried_either_way = { ranked_back };

    fn facts(self) -> (Fact, Fact) {
        match self {
            Upset::Marked => (Some(0), Some(0)),
            Upset::Unmarked => (Some(0), None),
        }
    }

    fn carries(a: usize, b: usize, facts: (Fact, Fact)) -> bool {
        match turned_to(a, b, facts) {
            (Some(stronger), None) if stronger == 0 => a != b,
            (Some(stronger), Some(weaker)) if stronger == 0 && weaker == 0 => a != b,
            _ => false,
        }
    }

    fn of(a: usize, b: usize, facts: (Fact, Fact)) -> Upset {
        let (_, weaker) = turned_to(a, b, facts);
        if is_free(weaker) {
            Upset::Marked
        } else {
            Upset::Unmarked
        }
    }
}
