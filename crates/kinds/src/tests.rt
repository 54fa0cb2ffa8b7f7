use crate::lending::store;
use account::account::Account;
use record::numbers::Numbers;
use record::record::Record;
use record::refusal::Refusal;
use std::test::Fail;
use storage::byte_log::ByteLog;
use storage::row::Row;
use storage::versioned_file::VersionedFile;

#[test]
fn sizes(rt: HostRuntime) -> Result<(), Fail> {
    let most = vec![in rt.alloc(); 0u8; 65536]?;
    let over = vec![in rt.alloc(); 0u8; 65552]?;
    assert_eq!(rt; ByteLog::check(&[0; 16]), Ok(1));
    assert_eq!(rt; ByteLog::check(most.as_slice()), Ok(4096));
    assert_eq!(rt; ByteLog::check(&[0; 15]), Err(Refusal::BadSize));
    assert_eq!(rt; ByteLog::check(over.as_slice()), Err(Refusal::BadSize));
    assert_eq!(rt; VersionedFile::check(&[]), Err(Refusal::BadSize));
    Ok(())
}

#[cfg(test)]
fn accept() -> Numbers {
    Numbers {
        kind: 2,
        attempt: 1,
        device: 1,
        version: 1,
        root: 500,
        setup: 7,
    }
}

// Only the record's own place changes.
#[test]
fn bytes(rt: HostRuntime) -> Result<(), Fail> {
    let r = Record::try_from(accept())?;
    let mut area = [255; 32];
    assert_eq!(rt; store(&mut area, &r), Ok(1));
    let (written, rest) = area.split_at(16);
    assert_eq!(rt; written, r.to_bytes().as_slice());
    assert_eq!(rt; rest, [255; 16].as_slice());
    Ok(())
}

#[test]
fn rows(rt: HostRuntime) -> Result<(), Fail> {
    let accept = Record::try_from(accept())?;
    let prepare = Record::try_from(Numbers {
        kind: 1,
        attempt: 1,
        device: 1,
        version: 1,
        root: 0,
        setup: 0,
    })?;
    let mut memory = [Row::BLANK; 2];
    let mut file = VersionedFile::new(&mut memory);
    assert_eq!(rt; file.append(&prepare), Ok(1));
    assert_eq!(rt; file.append(&accept), Ok(2));
    assert_eq!(rt; file.append(&accept), Err(Refusal::Full));
    assert_eq!(rt; file.read(0), Ok(prepare));
    assert_eq!(rt; file.read(1), Ok(accept));
    assert_eq!(rt; file.read(2), Err(Refusal::PastEnd));
    Ok(())
}
