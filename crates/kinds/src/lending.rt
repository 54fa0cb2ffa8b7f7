ghost use Rattle.std.specs.Prelude.{◌≡◌};
ghost use Rattle.record.specs.Entry.{entry_of};
ghost use Rattle.kinds.specs.Lending.{stored, filed};

use account::account::Account;
use record::record::Record;
use record::refusal::Refusal;
use storage::byte_log::ByteLog;
use storage::row::Row;
use storage::versioned_file::VersionedFile;

// Founds a byte log on any area and appends a record. The lender knows every byte afterwards.
pub fn store(area: &mut [u8], r: &Record) -> Result<usize, Refusal>
    ensures answer { result ≡ (stored area.old (entry_of r.now)).0 }
    ensures area { area.new ≡ (stored area.old (entry_of r.now)).1 }
{
    ByteLog::check(area)?;
    let mut log = ByteLog::new(area);
    log.append(r)
}

// The same with a versioned file, of which the lender knows every row. One function for both would need a trait of founding,
// and could say of the memory only what that trait says: not each row.
pub fn file(rows: &mut [Row], r: &Record) -> Result<usize, Refusal>
    ensures answer { result ≡ (filed rows.old (entry_of r.now)).0 }
    ensures rows { rows.new ≡ (filed rows.old (entry_of r.now)).1 }
{
    VersionedFile::check(rows)?;
    let mut versions = VersionedFile::new(rows);
    versions.append(r)
}
