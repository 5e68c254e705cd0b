// Sheets read word by word: each refusal with the word at which it stands, and each kind written and read back.
use crate::held::Sources;
use crate::misread::Misread;
use crate::reader::read;
use crate::writer::write;
use facts::prices::Fact;
use facts::refusals::Refusal;
use sources::kind::SourceKind;
use sources::source::MatchSource;
use std::alloc::{AllocError, Global};
use std::process::Abort;
use std::test::Fail;

const BRIBES: [u32; 13] = [
    0x40000044, 0x60100000, 0x60200004, 0x60300000, 0x61000005, 0x61200000, 0x61300000, 0x62000000,
    0x62100006, 0x62300003, 0x63000009, 0x63100007, 0x63200000,
];

fn bytes_of(heap: Global, words: &[u32]) -> Result<Vec<u8>, AllocError> {
    let mut bytes = Vec::new(heap);
    for word in words {
        bytes.extend_from_slice(&word.to_le_bytes())?;
    }
    Ok(bytes)
}

fn accepts(rt: &impl Abort, heap: Global, words: &[u32], kind: SourceKind) -> Result<(), Fail> {
    let mut sources = Sources::plain(8)?;
    assert_eq!(rt;
        read(bytes_of(heap, words)?.as_slice(), &mut sources),
        Ok(kind)
    );
    Ok(())
}

// The words are refused, and the sources shown are as they were.
fn refuses(
    rt: &impl Abort,
    heap: Global,
    words: &[u32],
    refusal: Refusal,
    word: usize,
) -> Result<(), Fail> {
    let mut sources = Sources::plain(8)?;
    assert_eq!(rt;
        read(bytes_of(heap, words)?.as_slice(), &mut sources),
        Err(Misread { refusal, word })
    );
    assert_eq!(rt; sources.size(SourceKind::Matrix), 8);
    assert_eq!(rt; sources.size(SourceKind::Order), 8);
    assert_eq!(rt; sources.size(SourceKind::Bribes), 8);
    Ok(())
}

#[test]
fn a_length_that_is_no_words(rt: HostRuntime) -> Result<(), Fail> {
    let mut sources = Sources::plain(2)?;
    assert_eq!(rt;
        read(&[], &mut sources),
        Err(Misread {
            refusal: Refusal::LengthNotWords,
            word: 0,
        })
    );
    assert_eq!(rt;
        read(&[0x42, 0, 0, 0x40, 0], &mut sources),
        Err(Misread {
            refusal: Refusal::LengthNotWords,
            word: 0,
        })
    );
    Ok(())
}

#[test]
fn heads(rt: HostRuntime) -> Result<(), Fail> {
    let heap = rt.alloc();
    refuses(&rt, heap, &[0xc0000042], Refusal::NotAHead, 0)?;
    refuses(&rt, heap, &[0x400000c2], Refusal::NotAHead, 0)?;
    refuses(&rt, heap, &[0x50000042], Refusal::NotAHead, 0)?;
    refuses(&rt, heap, &[0x40000043], Refusal::SizeNotAllowed, 0)?;
    refuses(&rt, heap, &[0x40000040], Refusal::SizeNotAllowed, 0)?;
    refuses(&rt, heap, &[0x40000063], Refusal::SizeNotAllowed, 0)?;
    refuses(&rt, heap, &[0x40000062], Refusal::SourceUnknown, 0)?;
    accepts(&rt, heap, &[0x40000030], SourceKind::Order)
}

#[test]
fn results(rt: HostRuntime) -> Result<(), Fail> {
    let heap = rt.alloc();
    accepts(&rt, heap, &[0x40000002, 0xc0000001], SourceKind::Matrix)?;
    accepts(&rt, heap, &[0x40000002, 0xc0000010], SourceKind::Matrix)?;
    refuses(
        &rt,
        heap,
        &[0x40000002, 0xa0000001],
        Refusal::WordNotAwaited,
        1,
    )?;
    refuses(
        &rt,
        heap,
        &[0x40000002, 0xc0000101],
        Refusal::WordNotAwaited,
        1,
    )?;
    refuses(
        &rt,
        heap,
        &[0x40000002, 0xc0000020],
        Refusal::EntrantsImpossible,
        1,
    )?;
    refuses(
        &rt,
        heap,
        &[0x40000002, 0xc0000011],
        Refusal::EntrantsImpossible,
        1,
    )?;
    refuses(
        &rt,
        heap,
        &[0x40000004, 0xc0000001, 0xc0000030],
        Refusal::EntrantsNotAwaited,
        2,
    )?;
    refuses(&rt, heap, &[0x40000002], Refusal::WordCountWrong, 1)?;
    refuses(
        &rt,
        heap,
        &[0x40000002, 0xc0000001, 0x00000000],
        Refusal::WordCountWrong,
        2,
    )
}

#[test]
fn upsets(rt: HostRuntime) -> Result<(), Fail> {
    let heap = rt.alloc();
    accepts(
        &rt,
        heap,
        &[0x40000024, 0xa0000001, 0xa0000013, 0xa0000023],
        SourceKind::Order,
    )?;
    refuses(
        &rt,
        heap,
        &[0x40000024, 0xc0000001],
        Refusal::WordNotAwaited,
        1,
    )?;
    refuses(
        &rt,
        heap,
        &[0x40000024, 0xb0000001],
        Refusal::WordNotAwaited,
        1,
    )?;
    refuses(
        &rt,
        heap,
        &[0x40000024, 0xa0000040],
        Refusal::EntrantsImpossible,
        1,
    )?;
    refuses(
        &rt,
        heap,
        &[0x40000024, 0xa0000010],
        Refusal::EntrantsNotAwaited,
        1,
    )?;
    refuses(
        &rt,
        heap,
        &[0x40000024, 0xa0000013, 0xa0000013],
        Refusal::EntrantsNotAwaited,
        2,
    )?;
    refuses(
        &rt,
        heap,
        &[0x40000024, 0xa0000013, 0xa0000002],
        Refusal::EntrantsNotAwaited,
        2,
    )
}

#[test]
fn prices(rt: HostRuntime) -> Result<(), Fail> {
    let heap = rt.alloc();
    accepts(
        &rt,
        heap,
        &[0x40000042, 0x601f4240, 0x61000000],
        SourceKind::Bribes,
    )?;
    accepts(
        &rt,
        heap,
        &[0x40000042, 0x70100000, 0x61000000],
        SourceKind::Bribes,
    )?;
    refuses(
        &rt,
        heap,
        &[0x40000042, 0x601f4241, 0x61000000],
        Refusal::PriceNotAllowed,
        1,
    )?;
    refuses(
        &rt,
        heap,
        &[0x40000042, 0x70100001, 0x61000000],
        Refusal::PriceNotAllowed,
        1,
    )?;
    refuses(
        &rt,
        heap,
        &[0x40000042, 0x60100001, 0x61000001],
        Refusal::SecondPriceNotFree,
        2,
    )?;
    refuses(
        &rt,
        heap,
        &[0x40000042, 0x70100000, 0x71000000],
        Refusal::SecondPriceNotFree,
        2,
    )?;
    refuses(
        &rt,
        heap,
        &[0x40000042, 0x61000000, 0x60100000],
        Refusal::EntrantsNotAwaited,
        1,
    )?;
    refuses(
        &rt,
        heap,
        &[0x40000042, 0x60200000],
        Refusal::EntrantsImpossible,
        1,
    )?;
    refuses(
        &rt,
        heap,
        &[0x40000042, 0xc0000001],
        Refusal::WordNotAwaited,
        1,
    )?;
    refuses(
        &rt,
        heap,
        &[0x40000042, 0x60100000],
        Refusal::WordCountWrong,
        2,
    )?;
    refuses(
        &rt,
        heap,
        &[0x40000042, 0x60100000, 0x61000000, 0x61000000],
        Refusal::WordCountWrong,
        3,
    )
}

// The sheet of a source, read into sources of another size.
fn goes_and_comes(
    rt: &impl Abort,
    sources: &Sources,
    kind: SourceKind,
    a: usize,
    b: usize,
    facts: (Fact, Fact),
) -> Result<(), Fail> {
    let mut buffer = [7u8; 1024];
    assert_eq!(rt; sources.pairing(kind, a, b), facts);
    let size = write(kind, sources, &mut buffer)?;
    assert!(rt; size <= 1023);
    assert_eq!(rt; buffer[size], 7);
    let mut other = Sources::plain(2)?;
    assert_eq!(rt; read(&buffer[0..size], &mut other), Ok(kind));
    assert_eq!(rt; other.size(kind), sources.size(kind));
    assert_eq!(rt; other.pairing(kind, a, b), facts);
    Ok(())
}

#[test]
fn written_and_read_back(rt: HostRuntime) -> Result<(), Fail> {
    let mut sources = Sources::plain(16)?;
    sources.matrix.amend(15, 14, (Some(0), None))?;
    sources.order.amend(15, 3, (Some(0), Some(0)))?;
    sources.bribes.amend(9, 4, (Some(1_000_000), Some(0)))?;
    goes_and_comes(&rt, &sources, SourceKind::Matrix, 15, 14, (Some(0), None))?;
    goes_and_comes(&rt, &sources, SourceKind::Order, 3, 15, (Some(0), Some(0)))?;
    goes_and_comes(
        &rt,
        &sources,
        SourceKind::Bribes,
        9,
        4,
        (Some(1_000_000), Some(0)),
    )
}

#[test]
fn a_short_buffer_stays_as_it_was(rt: HostRuntime) -> Result<(), Fail> {
    let sources = Sources::plain(4)?;
    let mut buffer = [7u8; 51];
    assert_eq!(rt;
        write(SourceKind::Bribes, &sources, &mut buffer),
        Err(Refusal::MemoryTooShort)
    );
    assert_eq!(rt; buffer[0], 7);
    assert_eq!(rt; write(SourceKind::Order, &sources, &mut buffer), Ok(4));
    assert_eq!(rt; buffer[4], 7);
    Ok(())
}

#[test]
fn the_four_entrant_bribes(rt: HostRuntime) -> Result<(), Fail> {
    let mut sources = Sources::plain(2)?;
    assert_eq!(rt;
        read(bytes_of(rt.alloc(), &BRIBES)?.as_slice(), &mut sources),
        Ok(SourceKind::Bribes)
    );
    assert_eq!(rt;
        sources.pairing(SourceKind::Bribes, 0, 2),
        (Some(4), Some(0))
    );
    assert_eq!(rt;
        sources.pairing(SourceKind::Bribes, 3, 0),
        (Some(9), Some(0))
    );
    assert_eq!(rt; sources.size(SourceKind::Matrix), 2);
    Ok(())
}
