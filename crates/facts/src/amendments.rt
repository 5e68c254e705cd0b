// When an amendment of a sheet is refused: one order of checks for every match source.
ghost use Rattle.std.specs.Prelude.{◌≡◌};
ghost use Rattle.facts.specs.Amendments.{first_refusal};
ghost use Rattle.facts.specs.Outcomes.{decided};

use crate::prices::{Fact, is_free, is_over_top};
use crate::refusals::Refusal;

// Refuses by the first reason that applies; `carried` says whether the source in question carries such a pairing.
pub fn first_refusal(
    size: usize,
    a: usize,
    b: usize,
    facts: (Fact, Fact),
    carried: bool,
) -> Result<(), Refusal>
    ensures is_the_first_that_applies { result ≡ decided (first_refusal size a b facts carried) }
{
    if a >= size || b >= size {
        return Err(Refusal::EntrantUnknown);
    }
    if a == b {
        return Err(Refusal::EntrantsEqual);
    }
    if is_over_top(facts.0) || is_over_top(facts.1) {
        return Err(Refusal::PriceAboveTop);
    }
    if !is_free(facts.0) && !is_free(facts.1) {
        return Err(Refusal::NeitherSideFree);
    }
    if carried {
        Ok(())
    } else {
        Err(Refusal::PairingNotCarried)
    }
}
