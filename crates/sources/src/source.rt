// The one thing that every match source is: a sheet that can be asked and amended. Both entrants and
// a tuple of both facts are told one by one in every call on a source: a rule of this project.
ghost use Rattle.std.specs.Prelude.{◌≡◌, Some, None, Ok, Err};
ghost use Rattle.facts.specs.Sheets.{Sheet, Lawful, SameSheet, amended};
ghost use Rattle.facts.specs.Amendments.{refusal_of};
ghost use Rattle.facts.specs.Outcomes.{decided};
ghost use Rattle.facts.specs.declared.refusals.Refusal.{Refusal};

use facts::prices::Fact;
use facts::refusals::Refusal;

pub trait MatchSource {
    // what the source means
    ghost sheet: { Self → Sheet };

    fn size(&self) -> usize
        ensures is_the_size_of_the_field { result ≡ (sheet self.now).size };

    // What it takes for a to beat b, and for b to beat a.
    fn pairing(&self, a: usize, b: usize) -> (Fact, Fact)
        ensures is_a_over_b_then_b_over_a { result ≡ ((sheet self.now).beats a b, (sheet self.now).beats b a) };

    // Puts in what it takes for a to beat b, and for b to beat a.
    fn amend(&mut self, a: usize, b: usize, facts: (Fact, Fact)) -> Result<(), Refusal>
        ensures answers_by_the_first_refusal { result ≡ decided (refusal_of (sheet self.old) a b facts) }
        ensures accepted_puts_the_pairing_in { refusal_of (sheet self.old) a b facts ≡ None → SameSheet (sheet self.new) (amended (sheet self.old) a b facts) }
        ensures refused_changes_nothing { (e : Refusal) → refusal_of (sheet self.old) a b facts ≡ Some e → self.new ≡ self.old };

    ghost lawful: { (s : Self) → Lawful (sheet s) };
}
