// Where a source keeps what it knows of two entrants: at one place, the lower number's row and the
// higher number's column of a square of sixteen, so that each two entrants have one place.
ghost use Rattle.std.specs.Prelude.{◌≡◌, ◌<◌};
ghost use Rattle.sources.specs.Held.{place_of, turned};

use facts::prices::Fact;

pub const PLACES: usize = 256;

// One number and no row of rows: of a square within a square, each row's length would have to be
// stated too. Entrants are numbers, so that it asks that they are below sixteen.
pub(crate) fn place_of(a: usize, b: usize) -> usize
    requires { (a < 16) × (b < 16) }
    ensures { (result ≡ place_of a b) × (result < PLACES) }
{
    a.min(b) * 16 + a.max(b)
}

// The two facts of a pairing, told the other way round where b is the lower number.
pub(crate) fn turned_to(a: usize, b: usize, facts: (Fact, Fact)) -> (Fact, Fact)
    ensures { result ≡ turned a b facts }
{
    if a < b { facts } else { (facts.1, facts.0) }
}
