// The table of pairings: what it takes for each of two entrants to beat the other.
ghost use Rattle.std.specs.Prelude.{◌≡◌, IfOk, Some, string_bytes};
ghost use Rattle.std.specs.Fmt.{styled_text, styled_decimal};
ghost use Rattle.texts.specs.Pairings.{fact_text, fact_cell, pairing_header, pairing_line};

use facts::prices::Fact;
use std::alloc::{AllocError, Global};
use std::fmt;

// A fact as people read it. A win that costs nothing is free; one that no price buys never comes.
#[derive(Clone, Copy)]
struct Reading(Fact);

impl fmt::Display for Reading {
    ghost output = { λ r. Some (fact_text r.0) };

    ghost styled_output = { λ r spec. Some (fact_cell (styled_text spec) (styled_decimal spec) r.0) };

    fn fmt<W: fmt::Write>(&self, f: &mut fmt::Formatter<W>) -> fmt::Result {
        match self.0 {
            Some(0) => f.pad("free"),
            Some(price) => price.fmt(f),
            None => f.pad("never"),
        }
    }
}

// That text by itself, for whoever has a fact and no line.
pub fn fact_text(heap: Global, fact: Fact) -> Result<String, AllocError>
    ensures reads_free_or_the_price_or_never { IfOk result (λ s. string_bytes s ≡ fact_text fact) }
{
    Reading(fact).to_string(heap)
}

pub fn pairing_header() -> &'static str
    ensures has_a_title_over_each_column { result.now ≡ pairing_header }
{
    "first  second  first wins  second wins"
}

// The entrants a and b, what it takes for a to beat b, and for b to beat a; in columns as wide as
// the titles of `pairing_header`.
pub fn pairing_line(
    heap: Global,
    a: usize,
    b: usize,
    facts: (Fact, Fact),
) -> Result<String, AllocError>
    ensures tells_the_entrants_and_then_their_facts { IfOk result (λ s. string_bytes s ≡ pairing_line a b facts) }
{
    let first_wins = Reading(facts.0);
    let second_wins = Reading(facts.1);
    format!(in heap; "{a:>5}  {b:>6}  {first_wins:>10}  {second_wins:>11}")
}
