ghost use Rattle.std.specs.Prelude.{◌≡◌, Ok};
ghost use Rattle.kinds.specs.Relays.{relayed};

use account::account::Account;
use account::accounts::Accounts;
use account::end::End;
use account::pair::Pair;
use record::record::Record;
use record::refusal::Refusal;
use storage::byte_log::ByteLog;
use storage::row::Row;
use storage::versioned_file::VersionedFile;

// Copies the newest record of one account to the end of another, whatever their kinds.
pub fn relay<B: Accounts>(accounts: &mut B, from: usize, to: usize) -> Result<usize, Refusal>
    ensures call { (result, B.books accounts.new) ≡ relayed (B.books accounts.old) from to }
    ensures lent { B.lent accounts.new ≡ B.lent accounts.old }
{
    let length = accounts.length(from)?;
    let newest = accounts.read(from, length.saturating_sub(1))?;
    accounts.append(to, &newest)
}

// A record goes from a byte log to a versioned file, to another byte log and back to the first.
pub fn round_trip(r: &Record) -> Result<usize, Refusal>
    ensures { result ≡ Ok 2 }
{
    let mut low = [0u8; 32];
    let mut rows = [Row::BLANK; 2];
    let mut high = [0u8; 32];
    let mut first = ByteLog::new(&mut low);
    let mut second = VersionedFile::new(&mut rows);
    let mut third = ByteLog::new(&mut high);
    let last = Pair {
        first: &mut third,
        rest: End,
    };
    let others = Pair {
        first: &mut second,
        rest: last,
    };
    let mut accounts = Pair {
        first: &mut first,
        rest: others,
    };
    let _ = accounts.append(0, r);
    let _ = relay(&mut accounts, 0, 1);
    let _ = relay(&mut accounts, 1, 2);
    relay(&mut accounts, 2, 0)
}
