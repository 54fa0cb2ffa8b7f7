ghost use Rattle.std.specs.Prelude.{◌≡◌};
ghost use Rattle.protocol.specs.Deciding.{agreed_value, any_above, highest};

use journal::view::View;
use protocol::slot::Slot;
use quorum::quorum::Quorum;
use record::value::Value;

// The value of the first accepted ballot that a quorum of accounts shares.
pub(crate) fn accepted_by_quorum<Q: Quorum>(quorum: &Q, slots: &[Slot; 7]) -> Option<Value>
    ensures { result ≡ agreed_value (Q.Quorum.rule quorum.now) slots.now slots.now }
{
    for slot in slots {
        let ballot = slot.view.accepted;
        if ballot != 0 && quorum.is_quorum(slots.map(|other| other.view.accepted == ballot)) {
            return Some(slot.view.value);
        }
    }
    None
}

// Whether some account has promised a ballot above this one.
pub(crate) fn any_above(slots: &[Slot; 7], ballot: u32) -> bool
    ensures { result ≡ any_above ballot slots.now }
{
    slots.iter().any(|slot| slot.view.promised > ballot)
}

// The view with the highest accepted ballot, of the lowest account on a tie.
pub(crate) fn highest_accepted(slots: &[Slot; 7]) -> View
    ensures { result ≡ highest slots.now }
{
    slots.iter().fold(View::new(), |best, slot| {
        if slot.view.accepted > best.accepted {
            slot.view
        } else {
            best
        }
    })
}
