// Runs the record format and the log's rule on examples; every crate below is proved without them.
#![tactic(auto)]

use journal::area::{Fault, inspect};
use journal::view::View;
use record::numbers::Numbers;
use record::record::Record;
use record::refusal::Refusal;
use record::value::Value;
use std::test::Fail;

const PREPARE: Numbers = Numbers {
    kind: 1,
    attempt: 2,
    device: 3,
    version: 4,
    root: 0,
    setup: 0,
};

#[test]
fn numbers_are_refused_in_order(rt: HostRuntime) {
    let wrong = [
        (
            Numbers {
                kind: 3,
                attempt: 65536,
                ..PREPARE
            },
            Refusal::UnknownKind,
        ),
        (
            Numbers {
                attempt: 65536,
                version: 0,
                ..PREPARE
            },
            Refusal::TooWide,
        ),
        (
            Numbers {
                device: 16,
                ..PREPARE
            },
            Refusal::TooWide,
        ),
        (
            Numbers {
                version: 1024,
                ..PREPARE
            },
            Refusal::TooWide,
        ),
        (
            Numbers {
                root: 1 << 64,
                ..PREPARE
            },
            Refusal::TooWide,
        ),
        (
            Numbers {
                setup: 1 << 32,
                ..PREPARE
            },
            Refusal::TooWide,
        ),
        (
            Numbers {
                attempt: 0,
                version: 0,
                ..PREPARE
            },
            Refusal::NoAttempt,
        ),
        (
            Numbers {
                version: 0,
                root: 1,
                ..PREPARE
            },
            Refusal::NoVersion,
        ),
        (
            Numbers {
                setup: 1,
                ..PREPARE
            },
            Refusal::PrepareWithValue,
        ),
    ];
    for (numbers, refusal) in wrong {
        assert_eq!(rt; Record::try_from(numbers), Err(refusal));
    }
}

#[test]
fn a_record_survives_its_bytes(rt: HostRuntime) -> Result<(), Fail> {
    let last = Numbers {
        kind: 2,
        attempt: 65535,
        device: 15,
        version: 1023,
        root: u64::MAX as u128,
        setup: u32::MAX as u64,
    };
    for numbers in [PREPARE, last] {
        let record = Record::try_from(numbers)?;
        assert_eq!(rt; Record::from_bytes(&record.to_bytes()), Ok(record));
    }
    assert_eq!(rt; Record::from_bytes(&[0x40; 15]), Err(Refusal::NotWhole));
    assert_eq!(rt; Record::from_bytes(&[0x40; 17]), Err(Refusal::NotWhole));
    Ok(())
}

#[test]
fn an_area_is_refused_in_order(rt: HostRuntime) -> Result<(), Fail> {
    let prepare = Record::try_from(PREPARE)?.to_bytes();
    let bad = [0u8; 32];
    assert_eq!(rt;
        inspect(&bad[0..31], 1024),
        Err(Fault::Request(Refusal::NotWhole))
    );
    assert_eq!(rt; inspect(&bad, 1024), Err(Fault::Request(Refusal::TooWide)));
    assert_eq!(rt; inspect(&bad, 0), Err(Fault::Request(Refusal::NoVersion)));
    assert_eq!(rt;
        inspect(&bad, 1),
        Err(Fault::Record(0, Refusal::UnknownKind))
    );
    let silent = View {
        promised: 0,
        accepted: 0,
        value: Value::NONE,
    };
    assert_eq!(rt; inspect(&[], 1023), Ok(silent));
    assert_eq!(rt;
        inspect(&prepare, 4),
        Ok(View {
            promised: 35,
            ..silent
        })
    );
    Ok(())
}
