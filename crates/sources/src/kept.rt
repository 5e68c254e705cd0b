// What a match source keeps of two entrants: whatever tells the facts of both, the lower number's first.
ghost use Rattle.std.specs.Prelude.{◌≡◌, ℕ, Bool, true, Option};
ghost use Rattle.sources.specs.Held.{turned};
ghost use Rattle.sources.specs.Pairs.{allowed};

use facts::prices::Fact;

pub trait Kept: Copy {
    // the facts that it tells
    ghost told: { Self → Option ℕ × Option ℕ };

    // which pairings can be kept: entrants a and b, and their facts
    ghost carried: { ℕ → ℕ → Option ℕ → Option ℕ → Bool };

    fn facts(self) -> (Fact, Fact)
        ensures are_those_that_it_tells { result ≡ told self };

    // Whether these facts of a and b can be kept.
    fn carries(a: usize, b: usize, facts: (Fact, Fact)) -> bool
        ensures says_whether_the_pairing_can_be_kept { result ≡ carried a b facts.0 facts.1 };

    // What is kept of these facts of a and b.
    fn of(a: usize, b: usize, facts: (Fact, Fact)) -> Self
        requires every_sheet_allows_them { allowed facts ≡ true }
        requires they_can_be_kept { carried a b facts.0 facts.1 ≡ true }
        ensures tells_them_again { told result ≡ turned a b facts };

    ghost told_allowed: { (k : Self) → allowed (told k) ≡ true };

    ghost carried_either_way: { (a b : ℕ) (f g : Option ℕ) → carried a b f g ≡ carried b a g f };
}
