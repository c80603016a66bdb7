ghost use Rattle.std.specs.Prelude.{◌≡◌, Some, length};
ghost use Rattle.satp_base.specs.declared.session.SessionId.{SessionId};
ghost use Rattle.satp_sides.specs.Points.{Party, Slot};
ghost use Rattle.satp_points.specs.Deciding.{IsWritten};
ghost use Rattle.satp_points.specs.Decisions.{reply_by};
ghost use Rattle.satp_engine.specs.Replies.{after_made};
ghost use Rattle.satp_engine.specs.Turning.{Worked};

use satp_base::{Tale, Text};
use satp_points::Replying;

/// The reply after a message was made, of which this is the text; `standing` is the text that was the reply before, and
/// `tale` has the kinds of the chain with the message.
pub fn after_made(
    replying: Replying,
    standing: Option<Text>,
    text: Text,
    tale: &Tale,
) -> Option<Text>
    ensures same { result ≡ after_made replying standing text tale.now }
    ensures reply { (p : Party) (s : SessionId) (l after : Slot) → length l.texts ≡ length l.view.tale → Worked l (Some text) after → (IsWritten replying → ⊥) → standing ≡ reply_by p s replying l → tale.now ≡ after.view.tale → result ≡ reply_by p s replying after }
{
    match replying {
        Replying::LastUnlessWhole => { if tale.whole() { None } else { Some(text) } }
        Replying::LastOwn => Some(text),
        Replying::Again { place } => again_after_made(place, standing, text, tale),
        Replying::Nothing | Replying::Recover | Replying::Update { .. } => None,
    }
}

/// The same of what answers the message at a place that the chain has already.
fn again_after_made(place: u8, standing: Option<Text>, text: Text, tale: &Tale) -> Option<Text>
    ensures { result ≡ after_made (Replying.Again place) standing text tale.now }
{
    let length = tale.length();
    if tale.whole() {
        if place == length { None } else { Some(text) }
    } else if u16::from(place) + 1 == u16::from(length) {
        Some(text)
    } else {
        standing
    }
}
