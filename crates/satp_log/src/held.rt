ghost use Rattle.std.specs.Prelude.{◌↔◌, ◌≡◌, Some, IsTrue, slice_get};
ghost use Rattle.satp_log.specs.Logged.{IsPlaceOf};

use crate::state::SessionState;
use satp_base::SessionId;

/// A session, and what the records say of it.
#[derive(Drop)]
pub struct Held {
    pub session: SessionId,
    pub state: SessionState,
}

/// The index of a session's entry; none where no entry is of the session.
pub fn place_of(entries: &[Held], session: SessionId) -> Option<usize>
    ensures { IsPlaceOf entries.now session result }
{
    for index in 0..entries.len() {
        if is_of(entries, index, session) {
            return Some(index);
        }
    }
    None
}

/// Whether the entry at an index is of the session.
fn is_of(entries: &[Held], index: usize, session: SessionId) -> bool
    ensures { (h : Held) → slice_get entries.now index ≡ Some h → (IsTrue result ↔ (h.session ≡ session)) }
{
    match entries.get(index) {
        Some(held) => is_same(held.session, session),
        None => false,
    }
}

fn is_same(a: SessionId, b: SessionId) -> bool
    ensures { IsTrue result ↔ (a ≡ b) }
{
    a == b
}
