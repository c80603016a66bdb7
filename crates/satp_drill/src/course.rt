// A whole drill.
ghost use Rattle.std.specs.Prelude.{◌≡◌, true, List, option_map, IfOk};
ghost use Rattle.satp_accounts.specs.Books.{book_of as accounts_book};
ghost use Rattle.satp_drill.specs.Ends.{IsOpen, Leaves};
ghost use Rattle.satp_drill_runs.specs.Reports.{sessions_of};
ghost use Rattle.satp_memory.specs.Steps.{told_of};
ghost use Rattle.satp_outputs.specs.States.{book_of as outputs_book};
ghost use Rattle.satp_schedule.specs.Lines.{has_form};
ghost use Rattle.satp_schedule.specs.declared.line.Line.{Line};

use crate::exchange::Errand;
use crate::named::{Named, named_in, started};
use crate::names::origin_of;
use crate::pending::{Pending, SiteTrouble};
use crate::place::{Place, open, ready, settle};
use crate::report::{Report, draw_up};
use crate::sides::{Sides, abort_by, deliver_to, drive_by, found_both};
use satp_accounts::Accounts;
use satp_base::{LedgerCore, Memory, Terms};
use satp_memory::MemSite;
use satp_outputs::Outputs;
use satp_schedule::{Line, Schedule};
use std::alloc::Global;

/// What a drill comes to.
#[derive(Drop)]
pub struct Drilled {
    pub report: Report,
    /// The site of side A, at which the gateway `alpha` worked, before accounts.
    pub a: MemSite<Accounts>,
    /// The site of side B, at which the gateway `beta` worked, before outputs.
    pub b: MemSite<Outputs>,
}

/// Two new gateways carry out a schedule, line by line, and then the origin of each session that a `start` line names
/// recovers it, undisturbed. At last both are opened from their journals, and the report is drawn up by what these keep.
///
/// What a gateway refuses changes nothing, and the drill goes on. It ends early only where no memory is found.
pub fn drill(alloc: Global, schedule: &Schedule) -> Result<Drilled, Memory>
    ensures { IfOk result (λ d. Leaves schedule.now d.report (told_of d.a.disk) (option_map accounts_book d.a.core) (told_of d.b.disk) (option_map outputs_book d.b.core)) }
{
    let named = named_in(alloc, schedule)?;
    let sides = found_both(alloc)?;
    let sides = carry_out(alloc, sides, schedule)?;
    let sides = finish(alloc, sides, &named)?;
    let last = open_both(alloc, sides)?;
    Ok(conclude(&named, last))
}

/// Both gateways, opened at the end.
#[derive(Drop)]
struct Last {
    a: Place<Accounts>,
    b: Place<Outputs>,
}

fn open_both(alloc: Global, sides: Sides) -> Result<Last, Memory>
    ensures a { IfOk result (λ last. IsOpen last.a.gateway (told_of last.a.site.disk) (option_map accounts_book last.a.site.core)) }
    ensures b { IfOk result (λ last. IsOpen last.b.gateway (told_of last.b.site.disk) (option_map outputs_book last.b.site.core)) }
{
    let a = sides.a;
    let b = sides.b;
    let a = open_last(alloc, a)?;
    let b = open_last(alloc, b)?;
    Ok(Last { a, b })
}

/// Opens a gateway from its journal, after a restart where its site has stopped or failed.
fn open_last<C: LedgerCore>(alloc: Global, place: Place<C>) -> Result<Place<C>, Memory>
    ensures { IfOk result (λ p. IsOpen p.gateway (told_of p.site.disk) (option_map C.book p.site.core)) }
{
    let place = ready(alloc, place)?;
    let place = settle(place)?;
    open(alloc, place.site)
}

/// The report on these sessions, and both sites.
fn conclude(named: &Named, last: Last) -> Drilled
    requires a { IsOpen last.a.gateway (told_of last.a.site.disk) (option_map accounts_book last.a.site.core) }
    requires b { IsOpen last.b.gateway (told_of last.b.site.disk) (option_map outputs_book last.b.site.core) }
    ensures { (lines : List Line) → named.now ≡ sessions_of lines
        → Leaves lines result.report (told_of result.a.disk) (option_map accounts_book result.a.core) (told_of result.b.disk) (option_map outputs_book result.b.core) }
{
    let place_a = last.a;
    let place_b = last.b;
    let gateway_a = place_a.gateway;
    let a = place_a.site;
    let gateway_b = place_b.gateway;
    let b = place_b.site;
    let report = draw_up(named, &gateway_a, &a, &gateway_b, &b);
    Drilled { report, a, b }
}

/// Both sides within a schedule, and what is to go wrong in the next command.
#[derive(Drop)]
struct Course {
    sides: Sides,
    pending: Pending,
}

fn carry_out(alloc: Global, sides: Sides, schedule: &Schedule) -> Result<Sides, Memory> {
    let mut course = Course {
        sides,
        pending: Pending::none(),
    };
    for index in 0..schedule.length() {
        let Some(line) = schedule.line(index) else {
            unreachable!()
        };
        course = go_on(alloc, course, line)?;
    }
    Ok(course.sides)
}

/// Carries out a line, or notes what is to go wrong.
fn go_on(alloc: Global, course: Course, line: &Line) -> Result<Course, Memory>
    requires { has_form line.now ≡ true }
{
    let sides = course.sides;
    let pending = course.pending;
    let pending = match *line {
        Line::Stop { side, event, pick } => {
            pending.at_site(side, SiteTrouble::Stop { event, pick })
        }
        Line::Fail { side, call } => pending.at_site(side, SiteTrouble::Fail { call }),
        Line::Lose { n } => pending.losing(n),
        Line::Twice { n } => pending.repeating(n),
        _ => {
            let sides = command(alloc, sides, line, pending)?;
            return Ok(Course {
                sides,
                pending: Pending::none(),
            });
        }
    };
    Ok(Course { sides, pending })
}

fn command(alloc: Global, sides: Sides, line: &Line, pending: Pending) -> Result<Sides, Memory>
    requires { has_form line.now ≡ true }
{
    match *line {
        Line::Start {
            side,
            number,
            asset,
            amount,
            originator,
            beneficiary,
        } => {
            let session = started(side, number);
            let terms = Terms {
                amount,
                asset,
                beneficiary,
                originator,
            };
            drive_by(
                alloc,
                sides,
                side,
                Errand::Start { session, terms },
                pending,
            )
        }
        Line::Resume { side, session } => {
            drive_by(alloc, sides, side, Errand::Resume(session), pending)
        }
        Line::Recover { side, session } => {
            drive_by(alloc, sides, side, Errand::Recover(session), pending)
        }
        Line::Abort { side, session } => abort_by(alloc, sides, side, session, pending),
        Line::Deliver { side, n } => deliver_to(alloc, sides, side, n, pending),
        _ => Ok(sides),
    }
}

/// Each of these sessions is recovered by its origin, and nothing goes wrong.
fn finish(alloc: Global, sides: Sides, named: &Named) -> Result<Sides, Memory> {
    let mut sides = sides;
    for index in 0..named.count() {
        let Some(session) = named.get(index) else {
            unreachable!()
        };
        sides = drive_by(
            alloc,
            sides,
            origin_of(session),
            Errand::Recover(session),
            Pending::none(),
        )?;
    }
    Ok(sides)
}
