// Possibility: whether something can happen at all.
ghost use Rattle.std.specs.Prelude.{◌≡◌, Bool, if◌then◌else◌, Some, codes};
ghost use Rattle.algebra.specs.Possibilities.{possibilities};
ghost use Rattle.algebra.specs.Chances.{possibilities_lawful, possibilities_choose};

use crate::algebra::Algebra;
use crate::choosing::Choosing;
use facts::prices::Fact;
use std::fmt;

#[derive(Clone, Copy, PartialEq, Eq, Debug)]
pub struct Possibility {
    possible: bool,
}

impl Possibility {
    // No `From`: the names here and below say what the `bool` tells, which a conversion would not.
    pub fn new(possible: bool) -> Possibility
        ensures is_yes_where_it_is_possible { result.possible ≡ possible }
    {
        Possibility { possible }
    }

    pub fn is_possible(self) -> bool
        ensures is_what_it_means { result ≡ self.possible }
    {
        self.possible
    }
}

impl Algebra for Possibility {
    ghost Meaning = { Bool };

    ghost means = { λ p. p.possible };

    ghost semiring = { possibilities };

    ghost lawful = { possibilities_lawful };

    fn nothing() -> Possibility {
        Possibility { possible: false }
    }

    fn one() -> Possibility {
        Possibility { possible: true }
    }

    fn plus(self, other: Possibility) -> Possibility {
        Possibility {
            possible: self.possible | other.possible,
        }
    }

    fn times(self, other: Possibility) -> Possibility {
        Possibility {
            possible: self.possible & other.possible,
        }
    }

    fn same(self, other: Possibility) -> bool {
        self == other
    }

    fn weight(fact: Fact) -> Possibility {
        match fact {
            Some(price) if price == 0 => Possibility { possible: true },
            _ => Possibility { possible: false },
        }
    }
}

impl Choosing for Possibility {
    ghost chooses = { possibilities_choose };

    fn first_attains(self, other: Possibility) -> bool {
        !other.possible | self.possible
    }
}

impl fmt::Display for Possibility {
    ghost output = { λ p. Some (if p.possible then codes "yes" else codes "no") };

    fn fmt<W: fmt::Write>(&self, f: &mut fmt::Formatter<W>) -> fmt::Result {
        if self.possible {
            f.pad("yes")
        } else {
            f.pad("no")
        }
    }
}
