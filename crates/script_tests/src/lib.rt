// Runs scripts through parsing and printing, with the answers given; the crate below is proved without them.
#![tactic(auto)]

use protocol::answer::Answer;
use protocol::call::Call;
use protocol::outcome::Outcome;
use protocol::version::Version;
use record::refusal::Refusal;
use record::value::Value;
use script::answers::show;
use script::command::parse_line;
use script::cut::token;
use script::lines::{calls, parse};
use script::token::Token;
use std::alloc::{AllocError, Global};
use std::test::Fail;

fn printed(heap: Global, input: &[u8], answers: &[Answer]) -> Result<String, AllocError> {
    let lines = parse(heap, input)?;
    show(heap, lines.as_slice(), answers)
}

#[test]
fn two_devices_and_one_value(rt: HostRuntime) -> Result<(), Fail> {
    let input =
        b"J 1\nJ 2\nP 1 0 500 7\nS 1 0\nS 1 1\nR 1 0\nR 1 1\nS 1 0\nS 1 1\nR 1 0\nR 1 1\nP 2 0 900 8\nR 2 0\nR 2 1\nK 2\n";
    let value = Value {
        root: 500,
        setup: 7,
    };
    let answers = [
        Answer::Done,
        Answer::Done,
        Answer::Attempt(1),
        Answer::Length(1),
        Answer::Length(1),
        Answer::Taken(1, Outcome::Waiting),
        Answer::Taken(1, Outcome::Prepared),
        Answer::Length(2),
        Answer::Length(2),
        Answer::Taken(1, Outcome::Waiting),
        Answer::Taken(1, Outcome::Decided),
        Answer::Attempt(1),
        Answer::Taken(2, Outcome::Waiting),
        Answer::Taken(2, Outcome::Decided),
        Answer::Holds(Version { number: 1, value }),
    ];
    let lines = parse(rt.alloc(), input)?;
    assert_eq!(rt; calls(rt.alloc(), lines.as_slice())?.len(), 15);
    let text = show(rt.alloc(), lines.as_slice(), &answers)?;
    assert_eq!(rt;
        text.as_str(),
        "0\n0\n0 1\n0 1\n0 1\n0 1 0\n0 1 1\n0 2\n0 2\n0 1 0\n0 1 2\n0 1\n0 2 0\n0 2 2\n0 1 500 7\n"
    );
    Ok(())
}

#[test]
fn commands(rt: HostRuntime) {
    let value = Value {
        root: u64::MAX,
        setup: u32::MAX,
    };
    let device = u32::MAX;
    assert_eq!(rt; parse_line(b"J 4294967295"), Ok(Call::Join { device }));
    let set = Call::SetLink {
        device: 1,
        account: 2,
        state: 3,
    };
    assert_eq!(rt; parse_line(b"L 1 2 3"), Ok(set));
    let propose = Call::Propose {
        device: 1,
        base: 0,
        value,
    };
    assert_eq!(rt;
        parse_line(b"P 1 0 18446744073709551615 4294967295"),
        Ok(propose)
    );
    assert_eq!(rt; parse_line(b"A 0"), Ok(Call::Again { device: 0 }));
    assert_eq!(rt; parse_line(b"X 0"), Ok(Call::Restart { device: 0 }));
}

// Refused lines print their refusals, in their order among the answers.
#[test]
fn refusals(rt: HostRuntime) -> Result<(), Fail> {
    let words = printed(rt.alloc(), b"\nj 1\nJJ 1\n J 1\n\xff\nQ", &[])?;
    assert_eq!(rt; words.as_str(), "60\n60\n60\n60\n60\n60\n");
    let counts = printed(rt.alloc(), b"J\nJ 1 \nS 1\nP 1 2 3\nK 1 x", &[])?;
    assert_eq!(rt; counts.as_str(), "61\n61\n61\n61\n61\n");
    let numbers = printed(
        rt.alloc(),
        b"J \nJ 01\nJ +1\nJ 1\r\nJ 4294967296\nP 1 0 18446744073709551616 7\nP 1 0 000000000000000000000 7\n",
        &[],
    )?;
    assert_eq!(rt; numbers.as_str(), "62\n62\n62\n62\n62\n62\n62\n");
    let between = printed(
        rt.alloc(),
        b"J 1\nJ\nK 1",
        &[Answer::Done, Answer::Refused(Refusal::NotJoined)],
    )?;
    assert_eq!(rt; between.as_str(), "0\n61\n41\n");
    Ok(())
}

#[test]
fn long_inputs(rt: HostRuntime) -> Result<(), Fail> {
    let empty = printed(rt.alloc(), b"", &[])?;
    assert_eq!(rt; empty.as_str(), "");
    let mut input = vec![in rt.alloc(); b'\n'; 65_536]?;
    let lines = parse(rt.alloc(), input.as_slice())?;
    assert_eq!(rt; lines.len(), 65_536);
    input.push(b'J')?;
    let text = printed(rt.alloc(), input.as_slice(), &[])?;
    assert_eq!(rt; text.as_str(), "63\n");
    Ok(())
}

#[test]
fn tokens(rt: HostRuntime) -> Result<(), Fail> {
    let Some(Token::Number { bytes, place }) = token(b"P 1 0 500 7", 3) else {
        return Err(Fail::new("no number"));
    };
    assert_eq!(rt; bytes, b"500".as_slice());
    assert_eq!(rt; place, 6);
    Ok(())
}
