// What some of the lines look like on the page.
use crate::answers::tally_line;
use crate::entrants::entrant_line;
use crate::winners::winners_line;
use algebra::bribe::Bribe;
use algebra::draws::Draws;
use algebra::possibility::Possibility;
use std::test::Fail;

#[test]
fn all_lines_of_a_report_have_one_length(rt: HostRuntime) -> Result<(), Fail> {
    let short = entrant_line(
        rt.alloc(),
        0,
        Possibility::new(true),
        Draws::new(2),
        Bribe::new(Some(0)),
    )?;
    assert_eq!(rt;
        short.as_str(),
        "entrant  0  can win: yes  draws:          2  least bribe:         0"
    );
    let long = entrant_line(
        rt.alloc(),
        15,
        Possibility::new(false),
        Draws::new(999_999_999),
        Bribe::new(None),
    )?;
    assert_eq!(rt;
        long.as_str(),
        "entrant 15  can win:  no  draws: 999999999+  least bribe:      none"
    );
    assert_eq!(rt; short.len(), long.len());
    Ok(())
}

#[test]
fn only_the_top_count_has_a_plus(rt: HostRuntime) -> Result<(), Fail> {
    let below = tally_line(rt.alloc(), Draws::new(999_999_998))?;
    assert_eq!(rt; below.as_str(), "tally of draws: 999999998");
    let top = tally_line(rt.alloc(), Draws::new(4_000_000_000))?;
    assert_eq!(rt; top.as_str(), "tally of draws: 999999999+");
    Ok(())
}

#[test]
fn winners_stand_in_order(rt: HostRuntime) -> Result<(), Fail> {
    assert_eq!(rt; winners_line(rt.alloc(), 3, 4)?.as_str(), "winners: 0 1");
    assert_eq!(rt; winners_line(rt.alloc(), 0, 16)?.as_str(), "winners:");
    assert_eq!(rt;
        winners_line(rt.alloc(), 0x8000_0401, 40)?.as_str(),
        "winners: 0 10 31"
    );
    Ok(())
}
