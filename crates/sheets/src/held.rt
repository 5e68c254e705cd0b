// One match source of each kind, as a reader is shown them (a rule of this project).
ghost use Rattle.std.specs.Prelude.{◌≡◌};
ghost use Rattle.sheets.specs.Holdings.{sheet_at, AllPlain};

use facts::prices::Fact;
use facts::refusals::Refusal;
use sources::bribes::BribeFile;
use sources::kind::SourceKind;
use sources::matrix::ResultMatrix;
use sources::order::StrengthOrder;
use sources::source::MatchSource;

#[derive(Drop)]
pub struct Sources {
    pub matrix: ResultMatrix,
    pub order: StrengthOrder,
    pub bribes: BribeFile,
}

// `size` and `pairing` match on the kind: the kinds are a closed enum and the reader is shown one source
// of each, and no function here may hand out a `dyn MatchSource`.
impl Sources {
    // A matrix in which lower numbers win, an order without upsets, and a bribe file in which all is free.
    pub fn plain(size: usize) -> Result<Sources, Refusal>
        ensures each_is_plain_or_the_size_is_refused { AllPlain size result }
    {
        let matrix = ResultMatrix::lower_always_wins(size)?;
        let order = StrengthOrder::without_upsets(size)?;
        let bribes = BribeFile::all_free(size)?;
        Ok(Sources {
            matrix,
            order,
            bribes,
        })
    }

    pub fn size(&self, kind: SourceKind) -> usize
        ensures is_the_size_of_that_kind { result ≡ (sheet_at kind self.now).size }
    {
        match kind {
            SourceKind::Matrix => self.matrix.size(),
            SourceKind::Order => self.order.size(),
            SourceKind::Bribes => self.bribes.size(),
        }
    }

    pub fn pairing(&self, kind: SourceKind, a: usize, b: usize) -> (Fact, Fact)
        ensures is_a_over_b_then_b_over_a_in_that_kind { result ≡ ((sheet_at kind self.now).beats a b, (sheet_at kind self.now).beats b a) }
    {
        match kind {
            SourceKind::Matrix => self.matrix.pairing(a, b),
            SourceKind::Order => self.order.pairing(a, b),
            SourceKind::Bribes => self.bribes.pairing(a, b),
        }
    }
}
