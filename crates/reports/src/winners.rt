// The line of those who can win.
ghost use Rattle.std.specs.Prelude.{◌≡◌, IfOk, string_bytes};
ghost use Rattle.reports.specs.Winners.{winners_line};

use figures::sets::Members;
use std::alloc::{AllocError, Global};

// The members of the set among n entrants. The set has 32 bits, so that nobody from 32 on is in it.
pub fn winners_line(heap: Global, winners: u32, n: usize) -> Result<String, AllocError>
    ensures lists_the_members_rising { IfOk result (λ s. string_bytes s ≡ winners_line winners n) }
{
    let mut line = String::from_str(heap, "winners:")?;
    for entrant in Members::of(winners).take_while(|entrant| *entrant < n) {
        write!(line, " {entrant}")?;
    }
    Ok(line)
}
