// Whether a match of a record agrees with what is beneath it, by the words behind it.
ghost use Rattle.std.specs.Prelude.{◌≡◌, ◌+◌, ◌-◌, ◌^◌, ◌≤◌, length};
ghost use Rattle.records.specs.Matches.{the_two, fair_here};

use crate::words::{Match, champion_of};

fn is_between(told: Match, a: usize, b: usize) -> bool
    ensures { result ≡ the_two told.winner told.loser a b }
{
    (told.winner == a && told.loser == b) || (told.winner == b && told.loser == a)
}

// Whether a match agrees with the words behind it, where its part has so many rounds. A half has
// 2^rounds - 1 words; its first word names its champion, and its first leaf its lowest entrant, since
// a half that has its lowest entrant elsewhere has an unfair match of its own.
pub(crate) fn is_fair(told: Match, rounds: usize, more: &[u32]) -> bool
    requires some_rounds { 1 ≤ rounds }
    requires few_rounds { rounds ≤ 4 }
    requires both_halves_to_come { 2 ^ rounds - 1 + rounds ≤ length more.now }
    ensures { result ≡ fair_here rounds told more.now }
{
    let half = (1 << rounds) - 1;
    let first = champion_of(more[0]);
    let second = champion_of(more[half]);
    let lowest_first = champion_of(more[rounds - 1]) < champion_of(more[half + (rounds - 1)]);
    told.round == rounds && is_between(told, first, second) && lowest_first
}
