use crate::difference::Difference;
use crate::play::Play;
use crate::run_error::RunError;
use crate::trial::Trial;
use account::accounts::Accounts;
use account::pair::Pair;
use group::found::check;
use group::group::Group;
use quorum::quorum::Quorum;
use record::refusal::Refusal;
use storage::byte_log::ByteLog;
use storage::row::Row;
use storage::versioned_file::VersionedFile;

// A layout of accounts, told by its type.
pub trait Layout: Drop {
    // How many accounts it has.
    fn size(&self) -> usize;

    // Puts its accounts before those at hand, founds a group on all of them and runs it.
    fn found<A: Accounts + Drop, Q: Quorum + Copy>(
        self,
        trial: &mut Trial<'_>,
        quorum: Q,
        accounts: A,
    ) -> Result<(), RunError>;
}

// No more accounts.
#[derive(Clone, Copy)]
pub struct Stop;

// A byte log, then more.
#[derive(Clone, Copy)]
pub struct WithLog<L>(pub L);

// A versioned file, then more. Two types and not one over the kind of account: an account borrows its memory,
// and a trait for the kinds cannot name a type with a lifetime.
#[derive(Clone, Copy)]
pub struct WithFile<L>(pub L);

impl Layout for Stop {
    fn size(&self) -> usize {
        0
    }

    fn found<A: Accounts + Drop, Q: Quorum + Copy>(
        self,
        trial: &mut Trial<'_>,
        quorum: Q,
        accounts: A,
    ) -> Result<(), RunError> {
        let fits = quorum.size() == trial.model.logs.len();
        let said = check(&accounts, &quorum);
        let expected = fits.then_some(()).ok_or(Refusal::QuorumOfOtherSize);
        trial.expect(said, expected)?;
        if said.is_err() {
            return Ok(());
        }
        let mut play = Play {
            group: Group::new(accounts, quorum),
            trial,
        };
        play.run()?;
        // what was used once founds no second group
        let unused = play.trial.model.is_empty();
        let said = check(play.group.accounts(), &quorum);
        let expected = unused.then_some(()).ok_or(Refusal::NotEmpty);
        play.trial.expect(said, expected)
    }
}

impl<L: Layout> Layout for WithLog<L> {
    fn size(&self) -> usize {
        self.0.size().saturating_add(1)
    }

    fn found<A: Accounts + Drop, Q: Quorum + Copy>(
        self,
        trial: &mut Trial<'_>,
        quorum: Q,
        accounts: A,
    ) -> Result<(), RunError> {
        let maximum = trial.next_maximum()?;
        let mut area = vec![in trial.heap; 0xa5u8; maximum.saturating_mul(16)]?;
        let lent = area.as_mut_slice();
        if ByteLog::check(lent).is_err() {
            return Err(Difference::Founding.into());
        }
        let mut first = ByteLog::new(lent);
        let all = Pair {
            first: &mut first,
            rest: accounts,
        };
        self.0.found(trial, quorum, all)
    }
}

impl<L: Layout> Layout for WithFile<L> {
    fn size(&self) -> usize {
        self.0.size().saturating_add(1)
    }

    fn found<A: Accounts + Drop, Q: Quorum + Copy>(
        self,
        trial: &mut Trial<'_>,
        quorum: Q,
        accounts: A,
    ) -> Result<(), RunError> {
        let maximum = trial.next_maximum()?;
        let mut rows = vec![in trial.heap; Row::BLANK; maximum]?;
        let lent = rows.as_mut_slice();
        if VersionedFile::check(lent).is_err() {
            return Err(Difference::Founding.into());
        }
        let mut first = VersionedFile::new(lent);
        let all = Pair {
            first: &mut first,
            rest: accounts,
        };
        self.0.found(trial, quorum, all)
    }
}
