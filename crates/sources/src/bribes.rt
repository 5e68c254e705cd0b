// A bribe file: what it takes for each entrant to beat each other, one side of each pairing free.
ghost use Rattle.std.specs.Prelude.{◌≡◌};
ghost use Rattle.facts.specs.Facts.{one_free};
ghost use Rattle.sources.specs.Answers.{Opened};
ghost use Rattle.sources.specs.Bribery.{told as told_facts, bribe_sheet, all_free};
ghost use Rattle.sources.specs.Lawfulness.{free_back};

use crate::kept::Kept;
use crate::pairing::Pairing;
use crate::place::turned_to;
use crate::square::Square;
use facts::prices::{Fact, is_free};
use facts::refusals::Refusal;

pub type BribeFile = Square<Pairing>;

impl BribeFile {
    // A file in which every win is free.
    pub fn all_free(size: usize) -> Result<BribeFile, Refusal>
        ensures every_win_is_free_or_the_size_is_refused { Opened (λ f. bribe_sheet f.size.entrants f.kept) size (all_free size) result }
    {
        Square::alike(size, Pairing::new((Some(0), Some(0))))
    }
}

impl Kept for Pairing {
    ghost told = { told_facts };

    ghost carried = { λ a b. one_free };

    ghost told_allowed = { λ p. p.fair };

    ghost carried_either_way = { λ a b. free_back };

    fn facts(self) -> (Fact, Fact) {
        (self.lower, self.higher)
    }

    fn carries(_a: usize, _b: usize, facts: (Fact, Fact)) -> bool {
        is_free(facts.0) || is_free(facts.1)
    }

    fn of(a: usize, b: usize, facts: (Fact, Fact)) -> Pairing {
        Pairing::new(turned_to(a, b, facts))
    }
}
