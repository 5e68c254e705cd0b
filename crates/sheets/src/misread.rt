// Why a sheet is refused, and at which of its words.
ghost use Rattle.std.specs.Prelude.{◌≡◌};
ghost use Rattle.sheets.specs.Scanning.{placed};

use facts::refusals::Refusal;

#[derive(Clone, Copy, PartialEq, Eq, Debug)]
pub struct Misread {
    pub refusal: Refusal,
    pub word: usize,
}

// The same answer, a refusal with the word at which it stands.
pub(crate) fn at_word<T>(word: usize, answer: Result<T, Refusal>) -> Result<T, Misread>
    ensures { result ≡ placed word answer }
{
    answer.map_err(|refusal| Misread { refusal, word })
}
