// The two facts of a pairing as a bribe file keeps them: in bounds, and one side free.
ghost use Rattle.std.specs.Prelude.{◌≡◌, true};
ghost use Rattle.sources.specs.Pairs.{allowed};

use facts::prices::Fact;

#[derive(Clone, Copy)]
pub struct Pairing {
    pub(crate) lower: Fact,
    pub(crate) higher: Fact,
    ghost fair: { allowed (lower, higher) ≡ true },
}

impl Pairing {
    pub(crate) fn new(facts: (Fact, Fact)) -> Pairing
        requires { allowed facts ≡ true }
        ensures { (result.lower, result.higher) ≡ facts }
    {
        Pairing {
            lower: facts.0,
            higher: facts.1,
        }
    }
}
