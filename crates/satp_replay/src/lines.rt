// The lines, one after the other.
ghost use Rattle.std.specs.Prelude.{◌≡◌, ◌++◌, ◌∷◌, [], List, IfOk, OnOk, codes, decimal, length};
ghost use Rattle.satp_base.specs.Values.{session_text};
ghost use Rattle.satp_phrases.specs.Roles.{role_text};
ghost use Rattle.satp_log.specs.Logged.{LogHolds, sessions_in};
ghost use Rattle.satp_records.specs.declared.stored.Setup.{Setup as TheSetup};
ghost use Rattle.satp_sides.specs.Logs.{IsLog};
ghost use Rattle.satp_sides.specs.Points.{Party, Stored};
ghost use Rattle.satp_replay.specs.Replaying.{first_line, last_line, line_of, session_line, session_lines, state_text};

use satp_base::{Kind, Memory, Role, SessionId, Tale, Text, View};
use satp_log::Log;
use satp_phrases::{append_number, append_session, role_text};
use satp_records::Setup;
use std::alloc::Global;

/// Who the gateway is.
pub(crate) fn first_line(alloc: Global, setup: &Setup) -> Result<Text, Memory>
    ensures { IfOk result (λ text. text ≡ first_line setup.now) }
{
    let mut text = Text::copy(alloc, b"gateway ")?;
    text.append(setup.name.bytes())?;
    text.append(b" peer ")?;
    text.append(setup.peer.bytes())?;
    text.append(b"\n")?;
    Ok(text)
}

/// The sessions in the order of their first records. Where no memory is found some may have been added.
pub(crate) fn add_sessions(text: &mut Text, log: &Log) -> Result<(), Memory>
    requires { (p : Party) × (setup : TheSetup) × (xs : List Stored) × IsLog p xs × LogHolds log.now setup xs }
    ensures { (setup : TheSetup) (xs : List Stored) → LogHolds log.now setup xs → OnOk result (text.new ≡ text.old ++ session_lines xs (sessions_in xs)) }
{
    for index in 0..log.started() + log.accepted() {
        let Some(session) = log.session(index) else {
            unreachable!()
        };
        add_line(text, session, log.view(session))?;
    }
    Ok(())
}

/// The line of a session, where the records say something of it.
fn add_line(text: &mut Text, session: SessionId, view: Option<View>) -> Result<(), Memory>
    ensures { OnOk result (text.new ≡ text.old ++ line_of session view) }
{
    match view {
        Some(view) => add_session(text, session, &view),
        None => Ok(()),
    }
}

fn add_session(text: &mut Text, session: SessionId, view: &View) -> Result<(), Memory>
    ensures { OnOk result (text.new ≡ text.old ++ session_line session view.now) }
{
    add_name(text, session, view.role)?;
    add_state(text, &view.tale)
}

/// Which session it is, and which side of it this is.
fn add_name(text: &mut Text, session: SessionId, role: Role) -> Result<(), Memory>
    ensures { OnOk result (text.new ≡ text.old ++ (session_text session ++ codes " " ++ role_text role ++ codes " ")) }
{
    append_session(text, session)?;
    text.append(b" ")?;
    text.append(role_text(role))?;
    text.append(b" ")
}

/// How it stands, and how many messages its chain has.
fn add_state(text: &mut Text, tale: &Tale) -> Result<(), Memory>
    ensures { OnOk result (text.new ≡ text.old ++ (state_text tale.now ++ codes " " ++ decimal (length tale.now) ++ 10 ∷ [])) }
{
    text.append(state_text(tale))?;
    text.append(b" ")?;
    append_number(text, tale.length() as u64)?;
    text.append(b"\n")
}

/// How a session stands.
fn state_text(tale: &Tale) -> &'static [u8]
    ensures { result.now ≡ state_text tale.now }
{
    match tale.last() {
        Some(Kind::TransferComplete) => b"committed",
        Some(Kind::RollbackAck) => b"rolled-back",
        _ => b"open",
    }
}

/// How many records there are.
pub(crate) fn add_count(text: &mut Text, count: usize) -> Result<(), Memory>
    ensures { OnOk result (text.new ≡ text.old ++ last_line count) }
{
    text.append(b"records ")?;
    append_number(text, count as u64)?;
    text.append(b"\n")
}
