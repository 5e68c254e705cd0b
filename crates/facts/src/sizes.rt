// The size of a field as a type: a number of entrants that a knockout can have, and no other.
ghost use Rattle.std.specs.Prelude.{◌≡◌, true};
ghost use Rattle.facts.specs.Fields.{legal};
ghost use Rattle.facts.specs.Outcomes.{Answered};
ghost use Rattle.facts.specs.Refusals.{size_refusal};

use crate::fields::is_legal_size;
use crate::refusals::Refusal;

#[derive(Clone, Copy, PartialEq, Eq, Debug)]
pub struct FieldSize {
    entrants: usize,
    ghost legal: { legal entrants ≡ true },
}

impl FieldSize {
    pub fn entrants(self) -> usize
        ensures is_how_many_there_are { result ≡ self.entrants }
    {
        self.entrants
    }
}

impl TryFrom<usize> for FieldSize {
    type Error = Refusal;

    ghost try_from_gives = { λ n r. Answered (size_refusal n) (λ s. s.entrants ≡ n) r };

    fn try_from(entrants: usize) -> Result<FieldSize, Refusal> {
        if is_legal_size(entrants) {
            Ok(FieldSize { entrants })
        } else {
            Err(Refusal::SizeNotAllowed)
        }
    }
}
