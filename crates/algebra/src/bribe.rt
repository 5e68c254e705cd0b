// Bribe: the least sum of prices for which something can be had.
#![tactic(auto, using(crate::specs::Costs::same_cost, crate::specs::Costs::held_plus, crate::specs::Costs::held_times))]

ghost use Rattle.std.specs.Prelude.{◌≡◌, ◌≤◌, Some};
ghost use Rattle.algebra.specs.Bribing.{Cost, costing, held, bribing, price_text};
ghost use Rattle.algebra.specs.Costs.{costs_lawful, costs_choose};

use crate::algebra::Algebra;
use crate::choosing::Choosing;
use facts::prices::Fact;
use std::fmt;

// The highest price that can be paid.
pub const TOP_BRIBE: u32 = 999_999_999;

// Stands for none. Being the number after the top, it is the larger in any comparison, and a total
// above the top is cut to it: so neither call has to test for none. Tried with an `Option` in its
// place: a cell takes twice the memory that is lent, and a fill 1.13 of the time of the same method
// in Rust, where 1.1 is the most it may take and this takes 0.58.
const NO_BRIBE: u32 = 1_000_000_000;

#[derive(Clone, Copy, PartialEq, Eq, Debug)]
pub struct Bribe {
    number: u32,
    ghost within: { number ≤ 1000000000 },
}

impl Bribe {
    // No `From`: a price above the top is none here, and a conversion should lose nothing.
    pub fn new(price: Option<u32>) -> Bribe
        ensures is_the_bribe_of_that_price { held result.number ≡ costing price }
    {
        Bribe::weight(price)
    }

    // No `From`: the name says what is told.
    pub fn price(self) -> Option<u32>
        ensures is_the_price_meant { result ≡ (held self.number).price }
    {
        if self.number <= TOP_BRIBE {
            Some(self.number)
        } else {
            None
        }
    }
}

impl Algebra for Bribe {
    ghost Meaning = { Cost };

    ghost means = { λ b. held b.number };

    ghost semiring = { bribing };

    ghost lawful = { costs_lawful };

    fn nothing() -> Bribe {
        Bribe { number: NO_BRIBE }
    }

    fn one() -> Bribe {
        Bribe { number: 0 }
    }

    fn plus(self, other: Bribe) -> Bribe {
        Bribe {
            number: self.number.min(other.number),
        }
    }

    fn times(self, other: Bribe) -> Bribe {
        Bribe {
            number: (self.number + other.number).min(NO_BRIBE),
        }
    }

    fn same(self, other: Bribe) -> bool {
        self == other
    }

    fn weight(fact: Fact) -> Bribe {
        match fact {
            Some(price) if price <= TOP_BRIBE => Bribe { number: price },
            _ => Bribe { number: NO_BRIBE },
        }
    }
}

impl Choosing for Bribe {
    ghost chooses = { costs_choose };

    fn first_attains(self, other: Bribe) -> bool {
        self.number <= other.number
    }
}

impl fmt::Display for Bribe {
    ghost output = { λ b. Some (price_text (held b.number).price) };

    fn fmt<W: fmt::Write>(&self, f: &mut fmt::Formatter<W>) -> fmt::Result {
        match self.price() {
            Some(price) => price.fmt(f),
            None => f.pad("none"),
        }
    }
}
