use super::majority::Majority;
use super::quorum::Quorum;
use super::weighted::Weighted;
use record::refusal::Refusal;
use std::test::Fail;

// Marks of accounts from the rule's size on are passed over.
#[test]
fn quorums(rt: HostRuntime) -> Result<(), Fail> {
    let four = Majority::new(4)?;
    assert!(rt; !four.is_quorum([true, true, false, false, true, true, true]));
    assert!(rt; four.is_quorum([true, true, true, false, false, false, false]));
    let heavy = Weighted::new(&[3, 1, 1])?;
    assert!(rt; heavy.is_quorum([true, false, false, false, false, false, false]));
    assert!(rt; !heavy.is_quorum([false, true, true, true, true, true, true]));
    Ok(())
}

#[test]
fn refusals(rt: HostRuntime) {
    assert!(rt; matches!(Majority::new(0), Err(Refusal::BadAccountCount)));
    assert!(rt; matches!(Majority::new(8), Err(Refusal::BadAccountCount)));
    assert!(rt; matches!(Weighted::new(&[0; 8]), Err(Refusal::BadAccountCount)));
    assert!(rt; matches!(Weighted::new(&[0, 0, 0]), Err(Refusal::NoWeight)));
}
