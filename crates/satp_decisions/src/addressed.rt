ghost use Rattle.std.specs.Prelude.{◌≡◌, IfErr};
ghost use Rattle.satp_base.specs.Founding.{equal_names};
ghost use Rattle.satp_base.specs.Roles.{negate};
ghost use Rattle.satp_sides.specs.Calls.{is_misaddressed, is_named, is_strange};
ghost use Rattle.satp_log.specs.Journals.{party_of};
ghost use Rattle.satp_decisions.specs.Tests.{AnswersTest, IsOfTest, OverLog, address_refusal};

use satp_base::{Message, Name, SessionId};
use satp_log::Log;
use satp_points::Refused;
use satp_records::Setup;

/// The tests of a message before its body is looked at.
///
/// `Receiver` comes where it isn't from the peer to this gateway, else `Strange` where the session is of neither gateway, or is of this one and no record names it.
pub fn addressed(log: &Log, message: &Message) -> Result<(), Refused>
    ensures tests { OverLog log.now (λ p xs. AnswersTest (address_refusal p xs message.now) result) }
    ensures only { IfErr result IsOfTest }
{
    if !is_addressed(log.setup(), message) {
        return Err(Refused::Receiver);
    }
    if is_strange(log, message.session) {
        return Err(Refused::Strange {
            session: message.session,
        });
    }
    Ok(())
}

/// Whether the message is from the peer to this gateway.
pub fn is_addressed(setup: &Setup, message: &Message) -> bool
    ensures { negate result ≡ is_misaddressed (party_of setup.now) message.now }
{
    is_same(message.receiver, setup.name) && is_same(message.sender, setup.peer)
}

/// Whether the session is of neither gateway, or is of this one and no record names it.
fn is_strange(log: &Log, session: SessionId) -> bool
    ensures { OverLog log.now (λ p xs. result ≡ is_strange p xs session) }
{
    let setup = log.setup();
    if is_same(session.gateway, setup.name) {
        !is_named(log, session)
    } else {
        !is_same(session.gateway, setup.peer)
    }
}

/// Whether a record names the session.
fn is_named(log: &Log, session: SessionId) -> bool
    ensures { OverLog log.now (λ p xs. result ≡ is_named session xs) }
{
    match log.find(session) {
        Some(_) => true,
        None => false,
    }
}

fn is_same(a: Name, b: Name) -> bool
    ensures { result ≡ equal_names a b }
{
    a == b
}
