// The kinds of match source, and the number of each in the head of a sheet.
ghost use Rattle.std.specs.Prelude.{◌≡◌};
ghost use Rattle.sources.specs.Kinds.{kind_number, kind_of};

use facts::refusals::Refusal;

#[derive(Clone, Copy, PartialEq, Eq, Debug)]
pub enum SourceKind {
    Matrix = 0,
    Order = 1,
    Bribes = 2,
}

// The number goes out by `as` and comes in by `try_from`.
impl SourceKind {
    pub fn number(self) -> u8
        ensures is_the_number_in_the_head { result ≡ kind_number self }
    {
        self as u8
    }
}

impl TryFrom<u8> for SourceKind {
    type Error = Refusal;

    ghost try_from_gives = { λ number r. r ≡ kind_of number };

    fn try_from(number: u8) -> Result<SourceKind, Refusal> {
        match number {
            0 => Ok(SourceKind::Matrix),
            1 => Ok(SourceKind::Order),
            2 => Ok(SourceKind::Bribes),
            _ => Err(Refusal::SourceUnknown),
        }
    }
}
