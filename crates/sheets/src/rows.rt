// The rows of a sheet: which pairings they tell of, in which order, and what is wrong with one.
ghost use Rattle.std.specs.Prelude.{◌≡◌, ◌+◌, ◌*◌, ◌/◌, ◌%◌, ◌<◌, ◌≤◌};
ghost use Rattle.sheets.specs.Places.{has_row, next_row};
ghost use Rattle.sheets.specs.Judging.{judged};

use crate::words::Word;
use facts::fields::{are_opponents, is_legal_size};
use facts::prices::{Fact, is_free, is_over_top};
use facts::refusals::Refusal;
use sources::kind::SourceKind;
use sources::place::PLACES;

// What the reader awaits next.
#[derive(Clone, Copy)]
pub(crate) enum Awaited {
    Head,
    Outcome {
        lower: usize,
        higher: usize,
    },
    // an upset that stands at this place or behind it
    Upset {
        from: usize,
    },
    // with what it takes for the loser to beat the winner, as far as it is known
    Price {
        winner: usize,
        loser: usize,
        other: Fact,
    },
    Nothing,
}

// What an accepted word adds.
#[derive(Clone, Copy)]
pub(crate) enum Said {
    Head {
        size: usize,
        kind: SourceKind,
    },
    Row {
        first: usize,
        second: usize,
        facts: (Fact, Fact),
    },
}

// Where the row of a winner and a loser stands. A row's place is one number, and no pair, so that
// rising places rise by winner, then by loser. Entrants are numbers, so that it asks that they are
// below sixteen.
pub(crate) fn place_of(winner: usize, loser: usize) -> usize
    requires winner_is_an_entrant { winner < 16 }
    requires loser_is_an_entrant { loser < 16 }
    ensures { result ≡ winner * 16 + loser }
{
    winner * 16 + loser
}

// The winner and the loser of the row at a place. The place stays one number here too.
pub(crate) fn entrants_at(place: usize) -> (usize, usize)
    ensures { result ≡ (place / 16, place % 16) }
{
    (place / 16, place % 16)
}

// Whether a sheet of this kind can have a row at this place: of the three kinds each has its own.
pub(crate) fn has_row(kind: SourceKind, size: usize, place: usize) -> bool
    ensures { result ≡ has_row kind size place }
{
    let (winner, loser) = entrants_at(place);
    match kind {
        SourceKind::Matrix => are_opponents(size, winner, loser) && winner < loser,
        SourceKind::Order => are_opponents(size, winner, loser) && loser < winner,
        SourceKind::Bribes => are_opponents(size, winner, loser),
    }
}

pub(crate) fn next_row(kind: SourceKind, size: usize, from: usize) -> Option<usize>
    ensures { result ≡ next_row kind size from }
{
    (from..PLACES).find(|place| has_row(kind, size, *place))
}

// What a word says where this is awaited, or what is wrong with it: one `match` on both, with guards
// (a rule of this project), and so as long as there are cases. It is called for the head and for each
// row; where it is not put into both callers, reading takes up to a third longer.
#[inline(always)]
pub(crate) fn judge(size: usize, awaited: Awaited, word: Word) -> Result<Said, Refusal>
    requires { size ≤ 16 }
    ensures { result ≡ judged size awaited word }
{
    match (awaited, word) {
        (Awaited::Head, Word::Head { size, .. }) if !is_legal_size(size) => Err(
            Refusal::SizeNotAllowed,
        ),
        (Awaited::Head, Word::Head { size, source }) => Ok(Said::Head {
            size,
            kind: SourceKind::try_from(source)?,
        }),
        (Awaited::Head, _) => Err(Refusal::NotAHead),
        (Awaited::Nothing, _) => Err(Refusal::WordCountWrong),
        (Awaited::Outcome { .. }, Word::Outcome { winner, loser })
            if !are_opponents(size, winner, loser) => Err(Refusal::EntrantsImpossible),
        (Awaited::Outcome { lower, higher }, Word::Outcome { winner, loser })
            if winner == lower && loser == higher => {
            Ok(Said::Row {
                first: lower,
                second: higher,
                facts: (Some(0), None),
            })
        }
        (Awaited::Outcome { lower, higher }, Word::Outcome { winner, loser })
            if winner == higher && loser == lower => {
            Ok(Said::Row {
                first: lower,
                second: higher,
                facts: (None, Some(0)),
            })
        }
        (Awaited::Outcome { .. }, Word::Outcome { .. }) => Err(Refusal::EntrantsNotAwaited),
        (Awaited::Upset { .. }, Word::Upset { winner, loser })
            if !are_opponents(size, winner, loser) => Err(Refusal::EntrantsImpossible),
        (Awaited::Upset { from }, Word::Upset { winner, loser })
            if winner < loser || place_of(winner, loser) < from => Err(Refusal::EntrantsNotAwaited),
        (Awaited::Upset { .. }, Word::Upset { winner, loser }) => Ok(Said::Row {
            first: winner,
            second: loser,
            facts: (Some(0), Some(0)),
        }),
        (Awaited::Price { .. }, Word::Price { winner, loser, .. })
            if !are_opponents(size, winner, loser) => Err(Refusal::EntrantsImpossible),
        (
            Awaited::Price {
                winner: first,
                loser: second,
                ..
            },
            Word::Price { winner, loser, .. },
        ) if winner != first || loser != second => Err(Refusal::EntrantsNotAwaited),
        (Awaited::Price { .. }, Word::Price { fact: None, .. }) => Err(Refusal::PriceNotAllowed),
        (
            Awaited::Price { .. },
            Word::Price {
                fact: Some(fact),
                ..
            },
        ) if is_over_top(fact) => Err(Refusal::PriceNotAllowed),
        (
            Awaited::Price { other, .. },
            Word::Price {
                fact: Some(fact),
                ..
            },
        ) if !is_free(fact) && !is_free(other) => Err(Refusal::SecondPriceNotFree),
        (
            Awaited::Price { other, .. },
            Word::Price {
                winner,
                loser,
                fact: Some(fact),
            },
        ) => {
            Ok(Said::Row {
                first: winner,
                second: loser,
                facts: (fact, other),
            })
        }
        _ => Err(Refusal::WordNotAwaited),
    }
}
