// Each source at its limits: what it tells, what it takes and what it refuses, in the order of the refusals.
use crate::bribes::BribeFile;
use crate::kind::SourceKind;
use crate::matrix::ResultMatrix;
use crate::order::StrengthOrder;
use crate::source::MatchSource;
use facts::prices::Fact;
use facts::refusals::Refusal;
use std::process::Abort;
use std::test::Fail;

// An amendment told as a over b, and the same told as b over a, get the same answer.
fn refuses<S: MatchSource>(
    rt: &impl Abort,
    source: &mut S,
    a: usize,
    b: usize,
    facts: (Fact, Fact),
    why: Refusal,
) {
    assert_eq!(rt; source.amend(a, b, facts), Err(why));
    assert_eq!(rt; source.amend(b, a, (facts.1, facts.0)), Err(why));
}

fn takes<S: MatchSource>(rt: &impl Abort, source: &mut S, a: usize, b: usize, facts: (Fact, Fact)) {
    assert_eq!(rt; source.amend(a, b, facts), Ok(()));
    assert_eq!(rt; source.pairing(a, b), facts);
    assert_eq!(rt; source.pairing(b, a), (facts.1, facts.0));
}

fn refuses_in_order<S: MatchSource>(rt: &impl Abort, source: &mut S) {
    for (a, b, why) in [
        (4, 0, Refusal::EntrantUnknown),
        (3, 3, Refusal::EntrantsEqual),
        (0, 1, Refusal::PriceAboveTop),
    ] {
        refuses(rt, source, a, b, (Some(1_000_001), Some(1)), why);
    }
    refuses(rt, source, 0, 1, (Some(1), None), Refusal::NeitherSideFree);
}

#[test]
fn a_matrix_has_one_winner(rt: HostRuntime) -> Result<(), Fail> {
    let mut matrix = ResultMatrix::lower_always_wins(4)?;
    assert_eq!(rt; matrix.pairing(0, 3), (Some(0), None));
    takes(&rt, &mut matrix, 3, 0, (Some(0), None));
    takes(&rt, &mut matrix, 1, 2, (None, Some(0)));
    refuses_in_order(&rt, &mut matrix);
    refuses(
        &rt,
        &mut matrix,
        0,
        1,
        (Some(0), Some(0)),
        Refusal::PairingNotCarried,
    );
    assert_eq!(rt; matrix.pairing(0, 1), (Some(0), None));
    Ok(())
}

#[test]
fn an_order_marks_upsets(rt: HostRuntime) -> Result<(), Fail> {
    let mut order = StrengthOrder::without_upsets(4)?;
    assert_eq!(rt; order.pairing(3, 0), (None, Some(0)));
    takes(&rt, &mut order, 3, 0, (Some(0), Some(0)));
    takes(&rt, &mut order, 0, 3, (Some(0), None));
    refuses_in_order(&rt, &mut order);
    refuses(
        &rt,
        &mut order,
        0,
        1,
        (None, Some(0)),
        Refusal::PairingNotCarried,
    );
    refuses(
        &rt,
        &mut order,
        0,
        1,
        (Some(0), Some(5)),
        Refusal::PairingNotCarried,
    );
    Ok(())
}

#[test]
fn a_bribe_file_takes_prices_to_the_top(rt: HostRuntime) -> Result<(), Fail> {
    let mut bribes = BribeFile::all_free(4)?;
    assert_eq!(rt; bribes.pairing(2, 1), (Some(0), Some(0)));
    takes(&rt, &mut bribes, 2, 1, (Some(1_000_000), Some(0)));
    takes(&rt, &mut bribes, 1, 3, (None, Some(0)));
    refuses_in_order(&rt, &mut bribes);
    assert_eq!(rt; bribes.pairing(1, 2), (Some(0), Some(1_000_000)));
    Ok(())
}

#[test]
fn nobody_beats_himself_or_a_stranger(rt: HostRuntime) -> Result<(), Fail> {
    let order = StrengthOrder::without_upsets(16)?;
    assert_eq!(rt; order.size(), 16);
    assert_eq!(rt; order.pairing(5, 5), (None, None));
    assert_eq!(rt; order.pairing(0, 16), (None, None));
    assert_eq!(rt; order.pairing(usize::MAX, 0), (None, None));
    Ok(())
}

#[test]
fn only_four_sizes_are_fields(rt: HostRuntime) {
    assert!(rt; BribeFile::all_free(2).is_ok());
    assert!(rt; ResultMatrix::lower_always_wins(3).is_err());
    assert!(rt; StrengthOrder::without_upsets(0).is_err());
    assert!(rt; BribeFile::all_free(32).is_err());
}

#[test]
fn three_numbers_are_kinds(rt: HostRuntime) {
    assert_eq!(rt; SourceKind::try_from(0), Ok(SourceKind::Matrix));
    assert_eq!(rt; SourceKind::try_from(2), Ok(SourceKind::Bribes));
    assert_eq!(rt; SourceKind::try_from(3), Err(Refusal::SourceUnknown));
}
