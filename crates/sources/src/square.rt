// A square of sixteen by sixteen places, in which something is kept of each two entrants.
ghost use Rattle.std.specs.Prelude.{◌≡◌, length};
ghost use Rattle.sources.specs.declared.place.TheConstants.{PLACES};
ghost use Rattle.sources.specs.Answers.{Opened};
ghost use Rattle.sources.specs.Held.{square_sheet, uniform_sheet};
ghost use Rattle.sources.specs.Holding.{told_lawful};

use crate::kept::Kept;
use crate::place::{PLACES, place_of, turned_to};
use crate::source::MatchSource;
use facts::amendments::first_refusal;
use facts::fields::are_opponents;
use facts::prices::Fact;
use facts::refusals::Refusal;
use facts::sizes::FieldSize;

#[derive(Drop)]
pub struct Square<K> {
    size: FieldSize,
    kept: [K; PLACES],
    ghost whole: { length kept ≡ PLACES },
}

impl<K: Kept> Square<K> {
    // A square that keeps the same of every two entrants.
    pub(crate) fn alike(size: usize, kept: K) -> Result<Square<K>, Refusal>
        ensures tells_the_same_everywhere_or_the_size_is_refused { Opened (λ s. square_sheet K.told K.carried s.size.entrants s.kept) size (uniform_sheet K.carried size (K.told kept)) result }
    {
        Ok(Square {
            size: FieldSize::try_from(size)?,
            kept: [kept; PLACES],
        })
    }
}

impl<K: Kept> MatchSource for Square<K> {
    ghost sheet = { λ s. square_sheet K.told K.carried s.size.entrants s.kept };

    ghost lawful = { λ s. told_lawful K.told K.carried s.size.entrants s.kept s.whole s.size.legal K.told_allowed K.carried_either_way };

    fn size(&self) -> usize {
        self.size.entrants()
    }

    fn pairing(&self, a: usize, b: usize) -> (Fact, Fact) {
        if !are_opponents(self.size(), a, b) {
            return (None, None);
        }
        turned_to(a, b, self.kept[place_of(a, b)].facts())
    }

    fn amend(&mut self, a: usize, b: usize, facts: (Fact, Fact)) -> Result<(), Refusal> {
        first_refusal(self.size(), a, b, facts, K::carries(a, b, facts))?;
        self.kept[place_of(a, b)] = K::of(a, b, facts);
        Ok(())
    }
}
