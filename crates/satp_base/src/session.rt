ghost use Rattle.std.specs.Prelude.{◌≡◌, ℕ, ◌≤◌, IfSome, length, position, ◌==◌, ◌<◌};
ghost use Rattle.satp_base.specs.Numbers.{greatest_number};

use crate::digits::read_number;
use crate::fault::SessionFault;
use crate::name::Name;

/// A session: the name of the gateway that opened it, and the number that it gave it, from 1 to
/// 4,294,967,295. It is written `<gateway>.<number>`, as in `alpha.1`.
///
/// Sessions are ordered by gateway, and then by number.
#[derive(Clone, Copy, Debug, PartialEq, Eq, PartialOrd, Ord)]
pub struct SessionId {
    /// The gateway that opened the session, on the origin's side.
    pub gateway: Name,
    /// The number among the sessions of that gateway.
    pub number: u32,
    pub ghost low: { 1 ≤ number },
    pub ghost high: { number ≤ greatest_number },
}

impl SessionId {
    ghost use Rattle.std.specs.Prelude.{◌≡◌, Ok, Some, None, IsOk, MatchResult, ◌↔◌};
    ghost use Rattle.satp_base.specs.Faults.{session_fault};
    ghost use Rattle.satp_base.specs.Values.{session_text, IsSessionText};
    ghost use Rattle.satp_base.specs.declared.session.SessionId.{SessionId};

    /// Reads a session, the whole text being its gateway, a full stop and its number in decimal, without
    /// sign or leading zero.
    ///
    /// `NoStop` comes where no full stop is, `Name` with the fault of what stands before the first full
    /// stop, and `Number` where what stands behind it is no number from 1 to 4,294,967,295.
    pub fn read(text: &[u8]) -> Result<SessionId, SessionFault>
        ensures form { IsOk result ↔ IsSessionText text.now }
        ensures read { MatchResult result
            (λ session. (session_fault text.now ≡ None) × (session_text session ≡ text.now))
            (λ fault. session_fault text.now ≡ Some fault) }
        ensures complete { (session : SessionId) → text.now ≡ session_text session → result ≡ Ok session }
    {
        let Some(stop) = first_stop(text) else {
            return Err(SessionFault::NoStop);
        };
        let gateway = match Name::read(&text[..stop]) {
            Ok(gateway) => gateway,
            Err(fault) => return Err(SessionFault::Name { fault }),
        };
        match read_number(&text[stop + 1..]) {
            Some(number) => Ok(SessionId { gateway, number }),
            None => Err(SessionFault::Number),
        }
    }
}

/// The first full stop.
fn first_stop(text: &[u8]) -> Option<usize>
    ensures first { result ≡ position (λ byte. byte == 46) text.now }
    ensures within { IfSome result (λ stop. stop < length text.now) }
{
    text.iter().position(|byte| *byte == b'.')
}
