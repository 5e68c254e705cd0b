// What is said of a sheet as a whole: its size and its kind of source.
ghost use Rattle.std.specs.Prelude.{◌≡◌, IfOk, string_bytes};
ghost use Rattle.texts.specs.Sheets.{kind_text, size_line, kind_line};

use sources::kind::SourceKind;
use std::alloc::{AllocError, Global};

// A constant text, which is handed out as it is; a Display would be no plainer.
pub fn kind_text(kind: SourceKind) -> &'static str
    ensures is_the_name_of_the_kind { result.now ≡ kind_text kind }
{
    match kind {
        SourceKind::Matrix => "result matrix",
        SourceKind::Order => "strength order",
        SourceKind::Bribes => "bribe file",
    }
}

pub fn size_line(heap: Global, size: usize) -> Result<String, AllocError>
    ensures tells_how_many_entrants { IfOk result (λ s. string_bytes s ≡ size_line size) }
{
    format!(in heap; "entrants: {size}")
}

// The name begins in the column where `size_line` has the size.
pub fn kind_line(heap: Global, kind: SourceKind) -> Result<String, AllocError>
    ensures tells_the_kind_and_its_number { IfOk result (λ s. string_bytes s ≡ kind_line kind) }
{
    format!(in heap; "source:   {} ({})", kind_text(kind), kind.number())
}
