// The sessions that a schedule starts.
ghost use Rattle.std.specs.Prelude.{◌≡◌, ◌≤◌, [], true, length, slice_get, IfOk, OnOk};
ghost use Rattle.std.specs.List.{list_any};
ghost use Rattle.satp_base.specs.Numbers.{greatest_number};
ghost use Rattle.satp_drill.specs.Naming.{adding};
ghost use Rattle.satp_drill_runs.specs.Reports.{name_of, session_of, sessions_of};
ghost use Rattle.satp_schedule.specs.Lines.{has_form, is_count};
ghost use Rattle.satp_sides.specs.Points.{is_session};

use crate::names::name_of;
use satp_base::{Memory, SessionId};
use satp_schedule::{Line, Schedule, Side};
use std::alloc::Global;
use std::marker::Model;

/// The most sessions that are counted. A schedule has fewer lines.
const MOST: usize = 4_294_967_295;

/// Different sessions, in the order in which they were named first.
#[derive(Drop)]
pub(crate) struct Named {
    sessions: Vec<SessionId>,
}

impl Model for Named {
    ghost use Rattle.std.specs.Prelude.{◌≤◌, List, length};
    ghost use Rattle.satp_base.specs.Numbers.{greatest_number};
    ghost use Rattle.satp_base.specs.declared.session.SessionId.{SessionId};

    ghost Value = { List SessionId };

    ghost view = { λ n. n.sessions.items };

    ghost invariant = { λ n. length n.sessions.items ≤ greatest_number };
}

impl Named {
    fn new(alloc: Global) -> Named
        ensures { result ≡ [] }
    {
        Named {
            sessions: Vec::new(alloc),
        }
    }

    /// Adds the session that a line starts, where it starts one that isn't there.
    fn add(&mut self, line: &Line) -> Result<(), Memory>
        requires { has_form line.now ≡ true }
        ensures { OnOk result (self.new ≡ adding self.old (session_of line.now)) }
    {
        match *line {
            Line::Start { side, number, .. } => self.add_session(started(side, number)),
            _ => Ok(()),
        }
    }

    fn add_session(&mut self, session: SessionId) -> Result<(), Memory>
        ensures { OnOk result (self.new ≡ adding self.old (Some session)) }
    {
        if has(&self.sessions, session) {
            return Ok(());
        }
        if self.sessions.len() >= MOST {
            return Err(Memory);
        }
        self.sessions.push(session)?;
        Ok(())
    }

    /// How many there are.
    pub(crate) fn count(&self) -> u32
        ensures { result ≡ length self.now }
    {
        self.sessions.len() as u32
    }

    /// The one at an index from 0.
    pub(crate) fn get(&self, index: u32) -> Option<SessionId>
        ensures { result ≡ slice_get self.now index }
    {
        self.sessions.get(index as usize).copied()
    }
}

/// The sessions that the lines of a schedule start. `Memory` where none was found to note them.
pub(crate) fn named_in(alloc: Global, schedule: &Schedule) -> Result<Named, Memory>
    ensures { IfOk result (λ named. named ≡ sessions_of schedule.now) }
{
    let mut named = Named::new(alloc);
    for index in 0..schedule.length() {
        let Some(line) = schedule.line(index) else {
            unreachable!()
        };
        named.add(line)?;
    }
    Ok(named)
}

/// Whether a session is among these.
fn has(sessions: &[SessionId], session: SessionId) -> bool
    ensures { result ≡ list_any (λ t. is_session session t) sessions.now }
{
    let mut found = false;
    for other in sessions {
        found = found || are_same(session, *other);
    }
    found
}

/// Two sessions are one.
fn are_same(a: SessionId, b: SessionId) -> bool
    ensures { result ≡ is_session a b }
{
    a == b
}

/// The session of this number that a side starts.
pub(crate) fn started(side: Side, number: u32) -> SessionId
    requires { is_count number ≡ true }
    ensures gateway { result.gateway ≡ name_of side }
    ensures number { result.number ≡ number }
{
    SessionId {
        gateway: name_of(side),
        number,
    }
}
