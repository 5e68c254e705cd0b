// Text in columns.
ghost use Rattle.std.specs.Prelude.{◌≡◌, IfOk, string_bytes};
ghost use Rattle.texts.specs.Columns.{aligned};

use std::alloc::{AllocError, Global};

// The text at the right end of a column; one that is too long is left as it is. For whoever prints
// texts in columns of bytes; the lines of this crate are formatted by width.
pub fn right_aligned(heap: Global, width: usize, text: &str) -> Result<String, AllocError>
    ensures stands_at_the_right_end { IfOk result (λ s. string_bytes s ≡ aligned width text.now) }
{
    // A format's width would count characters. The room for the whole cell is asked for at once: behind
    // `repeat`, the text would ask for as much again.
    let mut cell = String::with_capacity(heap, width.max(text.len()))?;
    for _ in 0..width.saturating_sub(text.len()) {
        cell.push(' ')?;
    }
    cell.push_str(text)?;
    Ok(cell)
}
