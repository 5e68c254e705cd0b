// How single answers of a table are written.
ghost use Rattle.std.specs.Prelude.{◌≡◌, IfOk, Some, string_bytes};
ghost use Rattle.std.specs.Fmt.{styled_text, styled_decimal};
ghost use Rattle.algebra.specs.Bribing.{held, price_text};
ghost use Rattle.algebra.specs.Drawing.{counted};
ghost use Rattle.reports.specs.Answers.{draws_text, draws_cell, tally_line};

use algebra::bribe::Bribe;
use algebra::draws::{Draws, TOP_COUNT};
use std::alloc::{AllocError, Global};
use std::fmt;

// A number of draws as a report tells it. The top count stands for that many or more, so that it
// has a plus behind it.
#[derive(Clone, Copy)]
pub(crate) struct Count(pub(crate) Draws);

impl fmt::Display for Count {
    ghost output = { λ c. Some (draws_text (counted c.0.count).number) };

    ghost styled_output = { λ c spec. Some (draws_cell (styled_text spec) (styled_decimal spec) (counted c.0.count).number) };

    fn fmt<W: fmt::Write>(&self, f: &mut fmt::Formatter<W>) -> fmt::Result {
        match self.0.count() {
            TOP_COUNT => f.pad("999999999+"),
            count => count.fmt(f),
        }
    }
}

// That text by itself, for whoever has a count and no line.
pub fn draws_text(heap: Global, draws: Draws) -> Result<String, AllocError>
    ensures reads_the_count_or_that_many_and_more { IfOk result (λ s. string_bytes s ≡ draws_text (counted draws.count).number) }
{
    Count(draws).to_string(heap)
}

// What a bribe shows of itself.
pub fn bribe_text(heap: Global, bribe: Bribe) -> Result<String, AllocError>
    ensures reads_the_price_or_none { IfOk result (λ s. string_bytes s ≡ price_text (held bribe.number).price) }
{
    bribe.to_string(heap)
}

// How many draws there are, over all entrants.
pub fn tally_line(heap: Global, tally: Draws) -> Result<String, AllocError>
    ensures tells_how_many_draws { IfOk result (λ s. string_bytes s ≡ tally_line (counted tally.count).number) }
{
    format!(in heap; "tally of draws: {}", Count(tally))
}
