// The algebras at their edges.
use crate::algebra::Algebra;
use crate::bribe::Bribe;
use crate::draws::Draws;
use crate::passage::{BribeToPossibility, DrawsToPossibility, Passage};
use crate::possibility::Possibility;
use std::test::Fail;

#[test]
fn products_of_draws_stop_at_the_top(rt: HostRuntime) {
    let below = Draws::new(31_622);
    let above = Draws::new(31_623);
    assert_eq!(rt; below.times(below).count(), 999_950_884);
    assert_eq!(rt; above.times(above).count(), 999_999_999);
}

#[test]
fn bribes_beyond_the_top_are_none(rt: HostRuntime) {
    let top = Bribe::new(Some(999_999_999));
    assert_eq!(rt; top.times(Bribe::new(Some(0))).price(), Some(999_999_999));
    assert_eq!(rt; top.times(Bribe::new(Some(1))).price(), None);
}

#[test]
fn only_a_free_win_is_possible_and_counts(rt: HostRuntime) {
    assert!(rt; Possibility::weight(Some(0)).is_possible());
    assert!(rt; !Possibility::weight(Some(1)).is_possible());
    assert!(rt; !Possibility::weight(None).is_possible());
    assert_eq!(rt; Draws::weight(Some(0)).count(), 1);
    assert_eq!(rt; Draws::weight(Some(1)).count(), 0);
    assert_eq!(rt; Draws::weight(None).count(), 0);
}

#[test]
fn a_win_costs_its_price(rt: HostRuntime) {
    assert_eq!(rt; Bribe::weight(Some(0)).price(), Some(0));
    assert_eq!(rt; Bribe::weight(Some(999_999_999)).price(), Some(999_999_999));
    assert_eq!(rt; Bribe::weight(Some(1_000_000_000)).price(), None);
    assert_eq!(rt; Bribe::weight(None).price(), None);
}

#[test]
fn passages_tell_what_is_possible(rt: HostRuntime) {
    assert!(rt; !DrawsToPossibility::lead(Draws::new(0)).is_possible());
    assert!(rt; DrawsToPossibility::lead(Draws::new(1)).is_possible());
    assert!(rt; BribeToPossibility::lead(Bribe::new(Some(0))).is_possible());
    assert!(rt; !BribeToPossibility::lead(Bribe::new(Some(1))).is_possible());
    assert!(rt; !BribeToPossibility::lead(Bribe::new(None)).is_possible());
}

#[test]
fn values_show_themselves(rt: HostRuntime) -> Result<(), Fail> {
    let no = Possibility::nothing();
    let yes = Possibility::one();
    let draws = Draws::new(4_000_000_000);
    let none = Bribe::new(None);
    let bribe = Bribe::new(Some(250));
    let text = format!(in rt.alloc(); "{no} {yes} {draws} {none} {bribe}")?;
    assert_eq!(rt; text.as_str(), "no yes 999999999 none 250");
    Ok(())
}
