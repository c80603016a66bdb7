ghost use Rattle.std.specs.Prelude.{◌≡◌, ◌≤◌, IfErr, None, Ok, Some};
ghost use Rattle.satp_base.specs.Roles.{IsReached, RoleRule, abort_of, rescues};
ghost use Rattle.satp_base.specs.declared.record.Rec.{Rec as RecOf};
ghost use Rattle.satp_base.specs.declared.session.SessionId.{SessionId as Session};
ghost use Rattle.satp_sides.specs.Calls.{Aborts, Rescues, Starts, Works};
ghost use Rattle.satp_sides.specs.Points.{slot_in};
ghost use Rattle.satp_points.specs.Deciding.{Decides, DecidesOver};
ghost use Rattle.satp_decisions.specs.Tests.{IsOfTest};
ghost use Rattle.satp_decisions.specs.Steps.{OverGateways, first_noted, first_rescued};

use satp_base::{Rec, Role, SessionId, Terms, TooLate, View};
use satp_log::Log;
use satp_points::{Decision, First, Refused, Replying};

/// The most sessions that a gateway begins in each role.
pub(crate) const MOST_SESSIONS: u32 = 2048;

/// A session of the gateway's own name begins, with the proposal of these terms.
///
/// `Exists` comes where a record names the session, else `Full` where 2,048 sessions were started here.
pub fn start(log: &Log, number: u32, terms: &Terms) -> Result<Decision, Refused>
    requires { 1 ≤ number }
    ensures decides { (s : Session) → s.gateway ≡ log.now.setup.name → s.number ≡ number → Decides (Starts s terms.now) log.now result }
    ensures only { IfErr result IsOfTest }
{
    let session = own_session(log, number);
    match log.find(session) {
        Some(_) => Err(Refused::Exists),
        None => propose(log, session, *terms),
    }
}

/// The session of the gateway's own name with this number.
fn own_session(log: &Log, number: u32) -> SessionId
    requires { 1 ≤ number }
    ensures { (s : Session) → s.gateway ≡ log.now.setup.name → s.number ≡ number → s ≡ result }
{
    SessionId {
        gateway: log.setup().name,
        number,
    }
}

/// A session of the gateway's own name, which no record names, begins.
fn propose(log: &Log, session: SessionId, terms: Terms) -> Result<Decision, Refused>
    ensures decides { OverGateways log.now (λ p xs. slot_in session xs ≡ None → session.gateway ≡ p.name → DecidesOver p xs (Starts session terms) result) }
    ensures only { IfErr result IsOfTest }
{
    if log.started() >= MOST_SESSIONS {
        return Err(Refused::Full {
            count: MOST_SESSIONS,
        });
    }
    Ok(Decision::Works {
        session,
        first: First::Begins {
            role: Role::Origin,
            terms,
        },
        replying: Replying::LastOwn,
    })
}

/// The due work of a session is done, and the reply is the chain's last text, unless the chain is whole.
///
/// `Strange` comes where no record names the session.
pub fn work(log: &Log, session: SessionId) -> Result<Decision, Refused>
    ensures decides { Decides (Works session) log.now result }
    ensures only { IfErr result IsOfTest }
{
    match log.find(session) {
        Some(_) => Ok(Decision::Works {
            session,
            first: First::Nothing,
            replying: Replying::LastUnlessWhole,
        }),
        None => Err(Refused::Strange { session }),
    }
}

/// A session turns back, unless it is on its way back already. There is no reply.
///
/// `Strange` comes where no record names the session, else `TooLate` where the message at its place decides the session.
pub fn abort(log: &Log, session: SessionId) -> Result<Decision, Refused>
    ensures decides { Decides (Aborts session) log.now result }
    ensures only { IfErr result IsOfTest }
{
    match log.find(session) {
        Some(state) => match abort_of(state.view()) {
            Ok(rec) => Ok(Decision::Works {
                session,
                first: noted(rec),
                replying: Replying::Nothing,
            }),
            Err(late) => Err(Refused::TooLate { place: late.place }),
        },
        None => Err(Refused::Strange { session }),
    }
}

/// A recovery round begins, where the role's rule allows it, and the reply says how long the chain is.
///
/// `Strange` comes where no record names the session.
pub fn rescue(log: &Log, session: SessionId) -> Result<Decision, Refused>
    ensures decides { Decides (Rescues session) log.now result }
    ensures only { IfErr result IsOfTest }
{
    match log.find(session) {
        Some(state) => Ok(Decision::Works {
            session,
            first: rescued(state.view()),
            replying: Replying::Recover,
        }),
        None => Err(Refused::Strange { session }),
    }
}

/// What the role answers that is asked to turn back.
fn abort_of(view: &View) -> Result<Option<Rec>, TooLate>
    ensures same { result ≡ abort_of view.now.role view.now }
    // the record that it gives may come
    ensures allowed { IsReached view.now.role view.now → (r : RecOf) → abort_of view.now.role view.now ≡ Ok (Some r) → RoleRule view.now.role view.now r }
{
    match view.role {
        // The laws do nothing. They say that the record may come.
        Role::Origin => {
            satp_origin::law_aborts();
            satp_origin::abort(view)
        }
        Role::Recipient => {
            satp_recipient::law_aborts();
            satp_recipient::abort(view)
        }
    }
}

/// The first record is this one, without a message, if there is one.
fn noted(rec: Option<Rec>) -> First
    ensures { result ≡ first_noted rec }
{
    match rec {
        Some(rec) => First::Note { rec },
        None => First::Nothing,
    }
}

/// The first record says that an undecided origin is in a recovery round.
pub(crate) fn rescued(view: &View) -> First
    ensures { result ≡ first_rescued view.now }
{
    if rescues(view) {
        First::Note { rec: Rec::Rescue }
    } else {
        First::Nothing
    }
}

/// Whether the side may enter a recovery round.
fn rescues(view: &View) -> bool
    ensures { result ≡ rescues view.now.role view.now }
{
    match view.role {
        Role::Origin => satp_origin::allows(view, &Rec::Rescue),
        Role::Recipient => false,
    }
}
