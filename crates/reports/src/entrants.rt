// The lines of a report: what a table says of each entrant.
ghost use Rattle.std.specs.Prelude.{◌≡◌, IfOk, string_bytes};
ghost use Rattle.algebra.specs.Bribing.{held};
ghost use Rattle.algebra.specs.Drawing.{counted};
ghost use Rattle.reports.specs.Entrants.{entrant_line};

use crate::answers::Count;
use algebra::bribe::Bribe;
use algebra::draws::Draws;
use algebra::possibility::Possibility;
use std::alloc::{AllocError, Global};

// Each column is as wide as the longest text that a knockout of 16 puts into it, so that all lines
// of a report end together.
pub fn entrant_line(
    heap: Global,
    entrant: usize,
    can_win: Possibility,
    draws: Draws,
    bribe: Bribe,
) -> Result<String, AllocError>
    ensures tells_the_entrant_and_then_the_answers { IfOk result (λ s. string_bytes s ≡ entrant_line entrant can_win.possible (counted draws.count).number (held bribe.number).price) }
{
    let chance = can_win.to_string(heap)?;
    let count = Count(draws);
    let price = bribe.to_string(heap)?;
    format!(in heap;
        "entrant {entrant:>2}  can win: {chance:>3}  draws: {count:>10}  least bribe: {price:>9}"
    )
}
