// What comes back of a refused call that was moved something: the thing itself, and why.
ghost use Rattle.std.specs.Prelude.{◌≡◌};

use crate::refusals::Refusal;

#[derive(Clone, Copy, PartialEq, Eq, Debug, Drop)]
pub struct Refused<S> {
    pub moved: S,
    pub refusal: Refusal,
}

// Where the caller has no use for what he moved, `?` keeps the refusal alone.
impl<S: Drop> From<Refused<S>> for Refusal {
    ghost from_gives = { λ refused refusal. refusal ≡ refused.refusal };

    fn from(refused: Refused<S>) -> Refusal {
        refused.refusal
    }
}
