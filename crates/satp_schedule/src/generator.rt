ghost use Rattle.std.specs.Prelude.{◌≡◌, ℕ, ◌≤◌, ◌<◌, ◌+◌, ◌%◌, ◌/◌, ◌^◌, ◌++◌, [], ◌∷◌, true, map, codes, length, OnOk, IfOk, decimal};
ghost use Rattle.satp_base.specs.Names.{is_name};
ghost use Rattle.satp_base.specs.Values.{name_text, session_text};
ghost use Rattle.satp_schedule.specs.Lines.{fields_of, has_form, side_text};
ghost use Rattle.satp_schedule.specs.Made.{lines_made, are_formed, round_lines, IsFormed};
ghost use Rattle.satp_schedule.specs.Generator as made;

use crate::line::{Line, Side};
use crate::schedule::Schedule;
use satp_base::{Amount, Memory, Name, SessionId};
use std::alloc::Global;

/// A linear congruential generator with a state of 64 bits, whose upper 31 bits are drawn.
#[derive(Drop)]
struct Draws {
    state: u64,
}

impl Draws {
    ghost use Rattle.std.specs.Prelude.{◌≡◌};
    ghost use Rattle.satp_schedule.specs.Generator as made;

    fn next(&mut self) -> u64
        ensures state { self.new.state ≡ made.next self.old.state }
        ensures drawn { result ≡ made.drawn self.new.state }
    {
        self.state = self
            .state
            .wrapping_mul(6_364_136_223_846_793_005)
            .wrapping_add(1_442_695_040_888_963_407);
        self.state >> 33
    }
}

/// The schedule of a number: two hundred transfers between the two sides, in turn, with stops, losses and
/// repeats as the draws have it.
pub fn generate(alloc: Global, seed: u32) -> Result<Schedule, Memory>
    ensures { IfOk result (λ schedule. map fields_of schedule ≡ made.generated seed) }
{
    let mut schedule = Schedule::new(alloc);
    let mut draws = Draws {
        state: u64::from(seed),
    };
    for i in 1..201 {
        add_round(&mut schedule, draw_round(&mut draws, i))?;
    }
    Ok(schedule)
}

/// The lines of a round, in their order.
#[derive(Clone, Copy)]
struct Round {
    wrong: Option<Line>,
    start: Line,
    aborted: Option<Line>,
    again: Option<Line>,
}

/// Draws round `i`.
fn draw_round(draws: &mut Draws, i: u32) -> Round
    requires first { 1 ≤ i }
    requires last { i ≤ 200 }
    ensures lines { round_lines result ≡ (made.round i draws.old.state).lines }
    ensures state { draws.new.state ≡ (made.round i draws.old.state).state }
    ensures formed { IsFormed result }
{
    let amount = draws.next() % 100 + 1;
    let kind = draws.next() % 4;
    let wrong = trouble(draws, kind);
    let aborted = abort(draws, kind, session(i));
    let again = repeat(draws, i);
    Round {
        wrong,
        start: start(i, amount),
        aborted,
        again,
    }
}

/// Adds the lines of a round.
fn add_round(schedule: &mut Schedule, round: Round) -> Result<(), Memory>
    requires { IsFormed round }
    ensures { OnOk result (map fields_of schedule.new ≡ map fields_of schedule.old ++ round_lines round) }
{
    add(schedule, round.wrong)?;
    add(schedule, Some(round.start))?;
    add(schedule, round.aborted)?;
    add(schedule, round.again)
}

/// Adds a line where there is one.
fn add(schedule: &mut Schedule, line: Option<Line>) -> Result<(), Memory>
    requires { are_formed line ≡ true }
    ensures { OnOk result (map fields_of schedule.new ≡ map fields_of schedule.old ++ lines_made line) }
{
    match line {
        Some(line) => schedule.push(line),
        None => Ok(()),
    }
}

/// What goes wrong in the round's transfer.
fn trouble(draws: &mut Draws, kind: u64) -> Option<Line>
    ensures lines { lines_made result ≡ (made.trouble kind draws.old.state).lines }
    ensures state { draws.new.state ≡ (made.trouble kind draws.old.state).state }
    ensures formed { are_formed result ≡ true }
{
    if kind == 1 {
        let side = side(draws.next());
        let event = count(draws.next(), 60);
        let pick = (draws.next() % 8) as u32;
        return Some(Line::Stop { side, event, pick });
    }
    if kind == 2 {
        return Some(Line::Lose {
            n: count(draws.next(), 11),
        });
    }
    if kind == 3 {
        return Some(Line::Twice {
            n: count(draws.next(), 11),
        });
    }
    None
}

/// The abort behind a transfer with a stop.
fn abort(draws: &mut Draws, kind: u64, session: SessionId) -> Option<Line>
    ensures lines { lines_made result ≡ (made.abort kind (session_text session) draws.old.state).lines }
    ensures state { draws.new.state ≡ (made.abort kind (session_text session) draws.old.state).state }
    ensures formed { are_formed result ≡ true }
{
    if kind != 1 {
        return None;
    }
    if draws.next() % 2 != 0 {
        return None;
    }
    let side = side(draws.next());
    Some(Line::Abort { side, session })
}

/// The old text that each tenth round hands over once more.
fn repeat(draws: &mut Draws, i: u32) -> Option<Line>
    requires first { 1 ≤ i }
    requires last { i ≤ 200 }
    ensures lines { lines_made result ≡ (made.repeat i draws.old.state).lines }
    ensures state { draws.new.state ≡ (made.repeat i draws.old.state).state }
    ensures formed { are_formed result ≡ true }
{
    if i % 10 != 0 {
        return None;
    }
    let side = side(draws.next());
    let n = count(draws.next(), u64::from(i) * 5);
    Some(Line::Deliver { side, n })
}

/// The transfer of a round.
fn start(i: u32, amount: u64) -> Line
    requires first { 1 ≤ i }
    requires last { i ≤ 200 }
    requires low { 1 ≤ amount }
    requires high { amount ≤ 100 }
    ensures fields { fields_of result ≡ made.start i amount }
    ensures formed { has_form result ≡ true }
{
    let number = i.div_ceil(2);
    let asset = name(b"gold");
    let Some(amount) = Amount::from(amount) else {
        unreachable!()
    };
    let ann = name(b"ann");
    let bob = name(b"bob");
    if i % 2 == 0 {
        Line::Start {
            side: Side::B,
            number,
            asset,
            amount,
            originator: bob,
            beneficiary: ann,
        }
    } else {
        Line::Start {
            side: Side::A,
            number,
            asset,
            amount,
            originator: ann,
            beneficiary: bob,
        }
    }
}

/// The session of a round.
fn session(i: u32) -> SessionId
    requires first { 1 ≤ i }
    requires last { i ≤ 200 }
    ensures { session_text result ≡ made.session_in i }
{
    let number = i.div_ceil(2);
    if i % 2 == 0 {
        SessionId {
            gateway: name(b"beta"),
            number,
        }
    } else {
        SessionId {
            gateway: name(b"alpha"),
            number,
        }
    }
}

fn name(text: &[u8]) -> Name
    requires { is_name text.now ≡ true }
    ensures { name_text result ≡ text.now }
{
    let Ok(name) = Name::read(text) else {
        unreachable!()
    };
    name
}

/// Side A by an even draw.
fn side(draw: u64) -> Side
    ensures { side_text result ≡ made.side_by draw }
{
    if draw % 2 == 0 { Side::A } else { Side::B }
}

/// A number from 1 to `most`.
fn count(draw: u64, most: u64) -> u32
    requires some { 1 ≤ most }
    requires most { most ≤ 1000 }
    ensures value { result ≡ 1 + draw % most }
    ensures low { 1 ≤ result }
    ensures high { result ≤ 1000 }
{
    (draw % most) as u32 + 1
}
