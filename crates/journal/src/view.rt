ghost use Rattle.std.specs.Prelude.{◌≡◌};
ghost use Rattle.record.specs.Entry.{entry_of};
ghost use Rattle.journal.specs.Log.{unread, tell};

use record::kind::Kind;
use record::record::Record;
use record::value::Value;

// What was read about one version: the highest ballot promised, and the highest accepted one with its value.
// No ballot is 0, and not an Option: so the rules of a log count and report it.
#[derive(Clone, Copy, Debug, PartialEq, Eq)]
pub struct View {
    pub promised: u32,
    pub accepted: u32,
    pub value: Value,
}

impl View {
    // Before any record was read.
    pub const UNREAD: View = View {
        promised: 0,
        accepted: 0,
        value: Value::NONE,
    };

    pub fn new() -> View
        ensures { result ≡ unread }
    {
        View::UNREAD
    }

    // Takes the log's next record, of whichever version.
    #[tactic(auto, unfolding(crate::specs::Log::tell))]
    pub fn tell(&mut self, version: u32, r: &Record)
        ensures { self.new ≡ tell version self.old (entry_of r.now) }
    {
        if u32::from(r.version) != version {
            return;
        }
        let ballot = r.ballot();
        match r.kind {
            Kind::Prepare => self.promised = self.promised.max(ballot),
            Kind::Accept => {
                if ballot >= self.promised && ballot >= self.accepted {
                    self.accepted = ballot;
                    self.value = r.value;
                }
            }
        }
    }
}
