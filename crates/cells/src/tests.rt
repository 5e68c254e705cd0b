// Halves of small sets, with their places and rests.
use crate::halves::{Half, Halves};

fn half(set: u32, rest: u32, place: usize) -> Option<Half> {
    Some(Half { set, rest, place })
}

fn last_place(set: u32, entrant: u32) -> Option<usize> {
    let mut last = None;
    for half in Halves::of(set, entrant) {
        last = Some(half.place);
    }
    last
}

#[test]
fn halves_of_four_that_hold_the_lowest(rt: HostRuntime) {
    let mut walk = Halves::of(15, 0);
    assert_eq!(rt; walk.next(), half(3, 12, 0));
    assert_eq!(rt; walk.next(), half(5, 10, 1));
    assert_eq!(rt; walk.next(), half(9, 6, 2));
    assert_eq!(rt; walk.next(), None);
    assert_eq!(rt; walk.next(), None);
}

#[test]
fn halves_of_four_that_hold_another(rt: HostRuntime) {
    let mut walk = Halves::of(15, 2);
    assert_eq!(rt; walk.next(), half(5, 10, 0));
    assert_eq!(rt; walk.next(), half(6, 9, 1));
    assert_eq!(rt; walk.next(), half(12, 3, 2));
    assert_eq!(rt; walk.next(), None);
}

#[test]
fn halves_of_two_and_of_eight(rt: HostRuntime) {
    assert_eq!(rt; Halves::of(0x8000_0001, 31).next(), half(0x8000_0000, 1, 0));
    assert_eq!(rt; last_place(0x8000_0001, 31), Some(0));
    assert_eq!(rt; last_place(0xff, 3), Some(34));
    assert_eq!(rt; last_place(0xaaaa, 15), Some(34));
}

#[test]
fn no_halves(rt: HostRuntime) {
    // of an entrant outside the set, of the empty set, of sets of odd size, of an entrant beyond every set
    assert_eq!(rt; last_place(15, 4), None);
    assert_eq!(rt; last_place(0, 0), None);
    assert_eq!(rt; last_place(7, 0), None);
    assert_eq!(rt; last_place(1, 0), None);
    assert_eq!(rt; last_place(15, 40), None);
}
