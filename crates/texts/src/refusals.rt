// What is said of a refusal: its number, what is wrong and what to mend.
ghost use Rattle.std.specs.Prelude.{◌≡◌, IfOk, string_bytes};
ghost use Rattle.texts.specs.Refusals.{cause_text, mend_text, refusal_line, sheet_refusal_line, mend_line};

use facts::refusals::Refusal;
use std::alloc::{AllocError, Global};

// What is wrong. A refusal has two texts, this one and `mend_text`, and a Display could be only one.
pub fn cause_text(refusal: Refusal) -> &'static str
    ensures says_what_is_wrong { result.now ≡ cause_text refusal }
{
    match refusal {
        Refusal::LengthNotWords => "the sheet is empty, or its last word is cut short",
        Refusal::NotAHead => "the first word is not a head, or the head says more than it may",
        Refusal::SizeNotAllowed => "a knockout cannot have this number of entrants",
        Refusal::SourceUnknown => "the head names source 3, which does not exist",
        Refusal::WordNotAwaited =>
            "another kind of word belongs here, or the word says more than it may",
        Refusal::EntrantsImpossible =>
            "the word names an entrant who is not in the field, or the same entrant twice",
        Refusal::EntrantsNotAwaited =>
            "it is not the turn of these two entrants, or the winner of the upset is the stronger",
        Refusal::PriceNotAllowed =>
            "the price is above 1,000,000, or 'never' stands together with a price",
        Refusal::SecondPriceNotFree => "the second price of this pairing leaves no side free",
        Refusal::WordCountWrong => "the sheet ends too early, or a word is left over",
        Refusal::EntrantUnknown => "an entrant is not in the field",
        Refusal::EntrantsEqual => "both entrants are the same",
        Refusal::PriceAboveTop => "a price is above 1,000,000",
        Refusal::NeitherSideFree => "neither side of the pairing is free",
        Refusal::PairingNotCarried => "this source does not carry such a pairing",
        Refusal::MemoryTooShort => "the memory that was given is too small",
        Refusal::RecordLengthWrong => "the record has not as many words as a bracket of this field",
        Refusal::RecordWordMisplaced =>
            "a word of the record is of another kind than its place asks, or says more than it may",
        Refusal::LeafImpossible =>
            "a leaf of the record names an entrant who is not in the field, or one who was named before",
        Refusal::MatchImpossible =>
            "a match of the record has a wrong round, is not between the champions beneath it, or has its lowest entrant in the second half",
        Refusal::SizesDiffer =>
            "the table was opened for another number of entrants than the sheet has",
        Refusal::NoWitness =>
            "no bracket makes this entrant the champion, or the cells are not those of a filled table",
        Refusal::NobodyCanWin => "nobody can win",
        Refusal::LevelsAllFilled => "every level of the table is filled already",
        Refusal::LevelMissing => "a level of the table is not filled yet",
    }
}

// What to mend.
pub fn mend_text(refusal: Refusal) -> &'static str
    ensures says_what_to_mend { result.now ≡ mend_text refusal }
{
    match refusal {
        Refusal::LengthNotWords =>
            "make the sheet of whole words, four bytes each, and of one word at least",
        Refusal::NotAHead =>
            "begin the sheet with a head of kind 2 that holds the source and the size and nothing else",
        Refusal::SizeNotAllowed => "make the size 2, 4, 8 or 16",
        Refusal::SourceUnknown =>
            "name source 0 (result matrix), 1 (strength order) or 2 (bribe file)",
        Refusal::WordNotAwaited =>
            "write the kind of word that belongs here, and leave what it does not use at zero",
        Refusal::EntrantsImpossible =>
            "name two different entrants, with numbers from 0 to one below the size",
        Refusal::EntrantsNotAwaited =>
            "order results by lower, then higher number, and prices and upsets by winner, then loser; only the weaker, the higher number, wins an upset",
        Refusal::PriceNotAllowed => "give a price of at most 1,000,000, or 'never' and no price",
        Refusal::SecondPriceNotFree => "make one of the pairing's two prices 0",
        Refusal::WordCountWrong => "give all the words that the sheet needs, and none after them",
        Refusal::EntrantUnknown => "give the number of an entrant, from 0 to one below the size",
        Refusal::EntrantsEqual => "name two different entrants",
        Refusal::PriceAboveTop => "give no price above 1,000,000",
        Refusal::NeitherSideFree => "make one of the two sides free, at price 0",
        Refusal::PairingNotCarried =>
            "in a result matrix make one side free and the other never; in a strength order make the stronger side free and the weaker free or never",
        Refusal::MemoryTooShort => "give more memory and try again",
        Refusal::RecordLengthWrong => "give one word fewer than twice the number of entrants",
        Refusal::RecordWordMisplaced =>
            "write a match, then its half with the lowest entrant, then the other half, down to leaves, and leave unused bits at zero",
        Refusal::LeafImpossible => "name each entrant of the field in one leaf",
        Refusal::MatchImpossible =>
            "count rounds from 1 at the leaves' matches, let the champions of both halves meet, and put the half with the lowest entrant first",
        Refusal::SizesDiffer => "open a table for as many entrants as the sheet has",
        Refusal::NoWitness =>
            "ask for an entrant whose figure is not nothing, on a table that was filled",
        Refusal::NobodyCanWin => "fill the table afresh: on every sheet somebody can win",
        Refusal::LevelsAllFilled => "finish the table instead of filling one more level",
        Refusal::LevelMissing => "fill every level before the table is finished",
    }
}

pub fn refusal_line(heap: Global, refusal: Refusal) -> Result<String, AllocError>
    ensures tells_the_number_and_the_cause { IfOk result (λ s. string_bytes s ≡ refusal_line refusal) }
{
    format!(in heap; "refused by {}: {}", refusal.number(), cause_text(refusal))
}

// With the word of the sheet at which the reading stopped.
pub fn sheet_refusal_line(heap: Global, refusal: Refusal, word: usize) -> Result<String, AllocError>
    ensures tells_the_number_the_word_and_the_cause { IfOk result (λ s. string_bytes s ≡ sheet_refusal_line refusal word) }
{
    format!(in heap;
        "refused by {} at word {word}: {}",
        refusal.number(),
        cause_text(refusal)
    )
}

pub fn mend_line(heap: Global, refusal: Refusal) -> Result<String, AllocError>
    ensures tells_what_to_mend { IfOk result (λ s. string_bytes s ≡ mend_line refusal) }
{
    format!(in heap; "to mend: {}", mend_text(refusal))
}
