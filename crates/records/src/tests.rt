// Records of four entrants: one that is accepted, and what each refusal is for.
use crate::verdict::verify;
use algebra::bribe::Bribe;
use algebra::possibility::Possibility;
use facts::refusals::Refusal;
use sources::bribes::BribeFile;
use sources::source::MatchSource;
use std::process::Abort;
use std::test::Fail;

// 0 beats 1 and 2 beats 3, then 2 beats 0.
const RECORD: [u32; 7] = [
    0x2000_0202,
    0x2000_0110,
    0x0000_0000,
    0x0000_0001,
    0x2000_0132,
    0x0000_0002,
    0x0000_0003,
];

fn bribe_sheet() -> Result<BribeFile, Fail> {
    let mut bribes = BribeFile::all_free(4)?;
    bribes.amend(0, 1, (Some(0), Some(5)))?;
    bribes.amend(0, 2, (Some(4), Some(0)))?;
    bribes.amend(0, 3, (Some(0), Some(9)))?;
    bribes.amend(1, 2, (Some(0), Some(6)))?;
    bribes.amend(1, 3, (Some(0), Some(7)))?;
    bribes.amend(2, 3, (Some(3), Some(0)))?;
    Ok(bribes)
}

fn refuses(rt: &impl Abort, words: &[u32], why: Refusal) -> Result<(), Fail> {
    let verdict = verify::<Possibility, BribeFile>(words, &bribe_sheet()?);
    assert_eq!(rt; verdict, Err(why));
    Ok(())
}

// The record with another word at one place.
fn refuses_with(rt: &impl Abort, place: usize, word: u32, why: Refusal) -> Result<(), Fail> {
    let mut words = RECORD;
    assert!(rt; place < words.len());
    words[place] = word;
    refuses(rt, &words, why)
}

#[test]
fn a_record_is_accepted_with_its_champion_and_weight(rt: HostRuntime) -> Result<(), Fail> {
    let sheet = bribe_sheet()?;
    let paid = verify::<Bribe, BribeFile>(&RECORD, &sheet)?;
    assert_eq!(rt; paid.champion, 2);
    assert_eq!(rt; paid.weight, Bribe::new(Some(3)));
    let unpaid = verify::<Possibility, BribeFile>(&RECORD, &sheet)?;
    assert_eq!(rt; unpaid.champion, 2);
    assert!(rt; !unpaid.weight.is_possible());
    Ok(())
}

#[test]
fn seven_words_are_asked_for(rt: HostRuntime) -> Result<(), Fail> {
    refuses(&rt, &RECORD[..6], Refusal::RecordLengthWrong)?;
    refuses(&rt, &[], Refusal::RecordLengthWrong)
}

#[test]
fn each_word_has_the_kind_of_its_place(rt: HostRuntime) -> Result<(), Fail> {
    refuses_with(&rt, 1, 0x0000_0000, Refusal::RecordWordMisplaced)?;
    refuses_with(&rt, 2, 0x2000_0110, Refusal::RecordWordMisplaced)?;
    refuses_with(&rt, 0, 0x4000_0202, Refusal::RecordWordMisplaced)
}

#[test]
fn no_unused_bit_is_set(rt: HostRuntime) -> Result<(), Fail> {
    refuses_with(&rt, 2, 0x0000_0010, Refusal::RecordWordMisplaced)?;
    refuses_with(&rt, 3, 0x1000_0001, Refusal::RecordWordMisplaced)?;
    refuses_with(&rt, 0, 0x2000_1202, Refusal::RecordWordMisplaced)?;
    refuses_with(&rt, 4, 0x3000_0132, Refusal::RecordWordMisplaced)
}

#[test]
fn each_leaf_names_an_entrant_not_named_before(rt: HostRuntime) -> Result<(), Fail> {
    refuses_with(&rt, 3, 4, Refusal::LeafImpossible)?;
    refuses_with(&rt, 6, 2, Refusal::LeafImpossible)
}

#[test]
fn each_match_agrees_with_what_is_beneath(rt: HostRuntime) -> Result<(), Fail> {
    // the round
    refuses_with(&rt, 0, 0x2000_0102, Refusal::MatchImpossible)?;
    // winner and loser
    refuses_with(&rt, 0, 0x2000_0230, Refusal::MatchImpossible)?;
    refuses_with(&rt, 1, 0x2000_0100, Refusal::MatchImpossible)?;
    // the lowest entrant in the second half
    let turned = [0x2000_0202, 0x2000_0132, 2, 3, 0x2000_0110, 0, 1];
    refuses(&rt, &turned, Refusal::MatchImpossible)
}

#[test]
fn matches_are_judged_last(rt: HostRuntime) -> Result<(), Fail> {
    let mut words = RECORD;
    words[0] = 0x2000_0302;
    words[6] = 2;
    refuses(&rt, &words, Refusal::LeafImpossible)?;
    words[5] = 0x2000_0000;
    refuses(&rt, &words, Refusal::RecordWordMisplaced)
}
