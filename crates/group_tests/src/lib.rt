// Runs a group to the ends of its numbers, where no script can bring it.
#![tactic(auto)]

use account::account::Account;
use account::accounts::Accounts;
use account::end::End;
use account::pair::Pair;
use bench::runs::run_by_weight;
use group::calls::Calls;
use group::found::{NotRun, check as check_group};
use group::group::Group;
use protocol::answer::Answer;
use protocol::call::Call;
use protocol::outcome::Outcome;
use quorum::majority::Majority;
use record::refusal::Refusal;
use record::value::Value;
use std::test::Fail;
use storage::byte_log::ByteLog;

const VALUE: Value = Value {
    root: 500,
    setup: 7,
};

// One device decides every version on one account; the last cannot be built on.
#[test]
fn the_last_version(rt: HostRuntime) -> Result<(), Fail> {
    let mut area = [0u8; 65536];
    let mut log = ByteLog::new(&mut area);
    let accounts = Pair {
        first: &mut log,
        rest: End,
    };
    let quorum = Majority::new(1)?;
    check_group(&accounts, &quorum)?;
    let mut group = Group::new(accounts, quorum);
    group.join(3)?;
    for base in 0..1023 {
        group.propose(3, base, VALUE)?;
        group.send(3, 0)?;
        group.read(3, 0)?;
        group.send(3, 0)?;
        let (_, outcome) = group.read(3, 0)?;
        assert_eq!(rt; outcome, Outcome::Decided);
    }
    assert_eq!(rt; group.propose(3, 1023, VALUE), Err(Refusal::LastVersion));
    assert_eq!(rt; group.read(3, 0), Ok((2046, Outcome::Waiting)));
    Ok(())
}

// One device uses up its attempts, and a restart gives none back.
#[test]
fn the_last_attempt(rt: HostRuntime) -> Result<(), Fail> {
    let mut area = [0u8; 16];
    let mut log = ByteLog::new(&mut area);
    let accounts = Pair {
        first: &mut log,
        rest: End,
    };
    let quorum = Majority::new(1)?;
    check_group(&accounts, &quorum)?;
    let mut group = Group::new(accounts, quorum);
    group.join(0)?;
    group.propose(0, 0, VALUE)?;
    for _ in 1..65535 {
        group.again(0)?;
    }
    assert_eq!(rt; group.again(0), Err(Refusal::NoAttemptLeft));
    group.restart(0)?;
    assert_eq!(rt; group.propose(0, 0, VALUE), Err(Refusal::NoAttemptLeft));
    Ok(())
}

#[test]
fn founding_is_refused(rt: HostRuntime) -> Result<(), Fail> {
    let mut area = [0u8; 16];
    let mut log = ByteLog::new(&mut area);
    let accounts = Pair {
        first: &mut log,
        rest: End,
    };
    assert_eq!(rt;
        check_group(&accounts, &Majority::new(2)?),
        Err(Refusal::QuorumOfOtherSize)
    );
    Ok(())
}

// The answers to a device that joins, proposes and uses account 0 alone, where account k weighs weights[k].
fn alone(rt: HostRuntime, weights: &[u8]) -> Result<Vec<Answer>, NotRun> {
    let calls = [
        Call::Join { device: 1 },
        Call::Propose {
            device: 1,
            base: 0,
            value: VALUE,
        },
        Call::Send {
            device: 1,
            account: 0,
        },
        Call::Read {
            device: 1,
            account: 0,
        },
        Call::Send {
            device: 1,
            account: 0,
        },
        Call::Read {
            device: 1,
            account: 0,
        },
    ];
    run_by_weight(rt.alloc(), weights, &calls)
}

// An account with more than half of the weight decides by itself, one with half does not.
#[test]
fn a_heavy_account(rt: HostRuntime) -> Result<(), Fail> {
    assert_eq!(rt;
        alone(rt, &[3, 1, 1])?.as_slice().last(),
        Some(&Answer::Taken(1, Outcome::Decided))
    );
    Ok(())
}

#[test]
fn half_of_the_weight(rt: HostRuntime) -> Result<(), Fail> {
    assert_eq!(rt;
        alone(rt, &[2, 1, 1])?.as_slice().last(),
        Some(&Answer::Taken(0, Outcome::Waiting))
    );
    Ok(())
}

#[test]
fn weights_for_two_accounts(rt: HostRuntime) {
    let refused = NotRun::Refused(Refusal::QuorumOfOtherSize);
    assert_eq!(rt; alone(rt, &[1, 1]).err(), Some(refused));
}
