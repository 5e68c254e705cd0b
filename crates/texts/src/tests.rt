// What some of the texts look like on the page.
use crate::pairings::{fact_text, pairing_header, pairing_line};
use crate::refusals::sheet_refusal_line;
use facts::refusals::Refusal;
use std::test::Fail;

#[test]
fn a_pairing_stands_under_its_titles(rt: HostRuntime) -> Result<(), Fail> {
    let line = pairing_line(rt.alloc(), 0, 1, (Some(0), Some(5)))?;
    assert_eq!(rt; line.as_str(), "    0       1        free            5");
    assert_eq!(rt; pairing_header(), "first  second  first wins  second wins");
    assert_eq!(rt; line.len(), pairing_header().len());
    Ok(())
}

#[test]
fn the_widest_pairing_still_fits(rt: HostRuntime) -> Result<(), Fail> {
    let line = pairing_line(rt.alloc(), 15, 14, (Some(1_000_000), Some(0)))?;
    assert_eq!(rt; line.len(), pairing_header().len());
    Ok(())
}

#[test]
fn a_refused_sheet_names_the_word(rt: HostRuntime) -> Result<(), Fail> {
    let line = sheet_refusal_line(rt.alloc(), Refusal::SecondPriceNotFree, 6)?;
    assert_eq!(rt;
        line.as_str(),
        "refused by 9 at word 6: the second price of this pairing leaves no side free"
    );
    Ok(())
}

#[test]
fn facts_read_as_people_say_them(rt: HostRuntime) -> Result<(), Fail> {
    assert_eq!(rt; fact_text(rt.alloc(), Some(0))?.as_str(), "free");
    assert_eq!(rt; fact_text(rt.alloc(), Some(1_000_000))?.as_str(), "1000000");
    assert_eq!(rt; fact_text(rt.alloc(), None)?.as_str(), "never");
    Ok(())
}
