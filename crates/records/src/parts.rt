// The parts of a record that are still to come.
ghost use Rattle.std.specs.Prelude.{◌≡◌, ℕ, ◌<◌, ◌≤◌, List, [], ◌∷◌, reverse, length, take};

use std::marker::Model;

// A small plain stack, since a verifier has no heap: the rounds of each part, the next one on top.
// Sixteen entrants never have more than five parts to come.
#[derive(Drop)]
pub(crate) struct Parts {
    rounds: [usize; 5],
    depth: usize,
}

// Clauses see the rounds of the parts, the next one first.
impl Model for Parts {
    ghost Value = { List ℕ };

    ghost view = { λ p. reverse (take p.depth p.rounds) };

    ghost invariant = { λ p. p.depth ≤ 5 };
}

impl Parts {
    // One part alone.
    pub(crate) fn one(rounds: usize) -> Parts
        ensures { result ≡ rounds ∷ [] }
    {
        Parts {
            rounds: [rounds, 0, 0, 0, 0],
            depth: 1,
        }
    }

    pub(crate) fn push(&mut self, rounds: usize)
        requires { length self.old < 5 }
        ensures { self.new ≡ rounds ∷ self.old }
    {
        self.rounds[self.depth] = rounds;
        self.depth += 1;
    }

    pub(crate) fn pop(&mut self) -> usize
        requires { 0 < length self.old }
        ensures { self.old ≡ result ∷ self.new }
    {
        self.depth -= 1;
        self.rounds[self.depth]
    }
}
