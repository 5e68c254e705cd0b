// Draws: in how many ways something can come about, counted up to a top.
#![tactic(auto, using(crate::specs::Counts::same_count, crate::specs::Cuts::cut_factors))]

ghost use Rattle.std.specs.Prelude.{◌≡◌, ◌≤◌, Some, decimal};
ghost use Rattle.algebra.specs.Drawing.{Count, counted, drawing};
ghost use Rattle.algebra.specs.Counts.{counts_lawful};

use crate::algebra::Algebra;
use facts::prices::Fact;
use std::fmt;

// Stands for that many draws or more.
pub const TOP_COUNT: u32 = 999_999_999;

#[derive(Clone, Copy, PartialEq, Eq, Debug)]
pub struct Draws {
    count: u32,
    ghost within: { count ≤ 999999999 },
}

impl Draws {
    // No `From`: a count above the top is cut, and a conversion should lose nothing.
    pub fn new(count: u32) -> Draws
        ensures is_the_count_cut_at_the_top { counted result.count ≡ counted count }
    {
        Draws {
            count: count.min(TOP_COUNT),
        }
    }

    // No `From`: the name says what is told.
    pub fn count(self) -> u32
        ensures is_the_number_meant { result ≡ (counted self.count).number }
    {
        self.count
    }
}

impl Algebra for Draws {
    ghost Meaning = { Count };

    ghost means = { λ d. counted d.count };

    ghost semiring = { drawing };

    ghost lawful = { counts_lawful };

    fn nothing() -> Draws {
        Draws { count: 0 }
    }

    fn one() -> Draws {
        Draws { count: 1 }
    }

    fn plus(self, other: Draws) -> Draws {
        Draws {
            count: (self.count + other.count).min(TOP_COUNT),
        }
    }

    // 64 bits hold every product, so that the cut is one comparison.
    fn times(self, other: Draws) -> Draws {
        let product = self.count as u64 * other.count as u64;
        Draws {
            count: product.min(TOP_COUNT as u64) as u32,
        }
    }

    fn same(self, other: Draws) -> bool {
        self == other
    }

    fn weight(fact: Fact) -> Draws {
        match fact {
            Some(price) if price == 0 => Draws { count: 1 },
            _ => Draws { count: 0 },
        }
    }
}

impl fmt::Display for Draws {
    ghost output = { λ d. Some (decimal (counted d.count).number) };

    fn fmt<W: fmt::Write>(&self, f: &mut fmt::Formatter<W>) -> fmt::Result {
        fmt::Display::fmt(&self.count, f)
    }
}
