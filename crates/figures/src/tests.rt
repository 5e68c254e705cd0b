// The count of brackets for each size, and sizes that no knockout has; sets and their members.
use crate::counts::bracket_count;
use crate::sets::{Members, holds};
use facts::refusals::Refusal;

#[test]
fn every_size_has_its_brackets(rt: HostRuntime) {
    assert_eq!(rt; bracket_count(2), Ok(1));
    assert_eq!(rt; bracket_count(4), Ok(3));
    assert_eq!(rt; bracket_count(8), Ok(315));
    assert_eq!(rt; bracket_count(16), Ok(638_512_875));
    assert_eq!(rt; bracket_count(6), Err(Refusal::SizeNotAllowed));
    assert_eq!(rt; bracket_count(0), Err(Refusal::SizeNotAllowed));
}

#[test]
fn members_come_by_rising_number(rt: HostRuntime) {
    let mut walk = Members::of(0x8000_0005);
    assert_eq!(rt; walk.next(), Some(0));
    assert_eq!(rt; walk.next(), Some(2));
    assert_eq!(rt; walk.next(), Some(31));
    assert_eq!(rt; walk.next(), None);
    assert_eq!(rt; walk.next(), None);
    let mut last = None;
    for member in Members::of(u32::MAX) {
        last = Some(member);
    }
    assert_eq!(rt; last, Some(31));
}

#[test]
fn a_set_holds_its_members(rt: HostRuntime) {
    assert!(rt; holds(0x8000_0004, 31) && holds(0x8000_0004, 2));
    assert!(rt; !holds(0x8000_0004, 0) && !holds(u32::MAX, 32));
    assert!(rt; !holds(u32::MAX, usize::MAX));
}
