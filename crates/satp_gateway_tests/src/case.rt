//! The runs of a case.

use crate::answer::{Answer, Shown};
use crate::call::Call;
use crate::lines::answer_call;
use crate::said::Said;
use crate::side::Side;
use satp_accounts::Accounts;
use satp_base::LedgerCore;
use satp_outputs::Outputs;
use std::alloc::Global;
use std::io;

/// More calls than any call on a gateway makes on its site.
const MOST_CALLS: u64 = 64;

const PICKS: [u32; 3] = [0, 1, 7];

/// What happens within the marked line.
#[derive(Clone, Copy)]
enum Trouble {
    Nothing,
    /// The call of this number fails.
    Failure(u64),
    /// The site stops after so many events, and starts again with this pick.
    Stop(u64, u32),
}

/// The two sides, and what was said in the case.
#[derive(Drop)]
struct Sides {
    a: Side<Accounts>,
    b: Side<Outputs>,
    said: Said,
}

/// Runs a case as often as it wants. None where no memory was found, or the output failed.
pub fn run_case(rt: &HostRuntime, lines: &str) -> Option<()> {
    if lines.contains("\n* ") {
        fail_each(rt, lines)?;
        for pick in PICKS {
            stop_each(rt, lines, pick)?;
        }
    }
    run(rt, lines, Trouble::Nothing)?;
    println!(rt; "").ok()
}

fn fail_each(rt: &HostRuntime, lines: &str) -> Option<()> {
    for call in 1..MOST_CALLS {
        print!(rt; "fail {call}").ok()?;
        if !run(rt, lines, Trouble::Failure(call))? {
            break;
        }
    }
    Some(())
}

fn stop_each(rt: &HostRuntime, lines: &str, pick: u32) -> Option<()> {
    for event in 0..MOST_CALLS {
        print!(rt; "stop {event} {pick}").ok()?;
        if !run(rt, lines, Trouble::Stop(event, pick))? {
            break;
        }
    }
    Some(())
}

/// Runs a case on new sites, and says whether its trouble came.
fn run(rt: &HostRuntime, lines: &str, trouble: Trouble) -> Option<bool> {
    let mut sides = new_sides(rt.alloc())?;
    run_lines(rt, &mut sides, lines, trouble)
}

fn new_sides(alloc: Global) -> Option<Sides> {
    Some(Sides {
        a: Side::new(alloc).ok()?,
        b: Side::new(alloc).ok()?,
        said: Said::new(alloc),
    })
}

fn run_lines(rt: &HostRuntime, sides: &mut Sides, lines: &str, trouble: Trouble) -> Option<bool> {
    let mut came = None;
    for line in lines.lines() {
        match line.strip_prefix("* ") {
            Some(marked) => came = Some(run_marked(rt, sides, marked, trouble)?),
            None => {
                let answer = answer_line(rt.alloc(), sides, line)?;
                print_answer(rt, line, answer, trouble, came.is_some())?;
            }
        }
    }
    end_of_run(rt, trouble)?;
    Some(came == Some(true))
}

/// Runs the marked line, and says whether its trouble came.
fn run_marked(rt: &HostRuntime, sides: &mut Sides, line: &str, trouble: Trouble) -> Option<bool> {
    let call = Call::read(line);
    trouble_side(sides, call.to, trouble)?;
    let answer = answer_line(rt.alloc(), sides, line)?;
    print_answer(rt, line, answer, trouble, true)?;
    clear_side(sides, call.to);
    Some(answer.is_site_fault())
}

fn trouble_side(sides: &mut Sides, to: &str, trouble: Trouble) -> Option<()> {
    match to {
        "a" => trouble_one(&mut sides.a, trouble),
        _ => trouble_one(&mut sides.b, trouble),
    }
}

fn trouble_one<C: LedgerCore>(side: &mut Side<C>, trouble: Trouble) -> Option<()> {
    match trouble {
        Trouble::Nothing => Some(()),
        Trouble::Failure(call) => side.fail(call).ok(),
        Trouble::Stop(event, pick) => {
            side.stop(event, pick);
            Some(())
        }
    }
}

fn clear_side(sides: &mut Sides, to: &str) {
    match to {
        "a" => sides.a.clear(),
        _ => sides.b.clear(),
    }
}

fn answer_line(alloc: Global, sides: &mut Sides, line: &str) -> Option<Answer> {
    let call = Call::read(line);
    match call.to {
        "a" => answer_call(alloc, &mut sides.a, &mut sides.said, call),
        "b" => answer_call(alloc, &mut sides.b, &mut sides.said, call),
        "brief" => {
            sides.said.be_brief();
            Some(Answer::Done)
        }
        _ => Some(Answer::Nothing),
    }
}

/// In a run with trouble the answers stand in one line, from the marked line on.
fn print_answer(
    rt: &HostRuntime,
    line: &str,
    answer: Answer,
    trouble: Trouble,
    from_marked: bool,
) -> Option<()> {
    let printed = match trouble {
        Trouble::Nothing if line.starts_with('#') => println!(rt; "{line}"),
        Trouble::Nothing => println!(rt; "{line}: {answer}"),
        _ if from_marked => print_shortly(rt, answer),
        _ => Ok(()),
    };
    printed.ok()
}

/// Of a text that was said, its kind alone.
fn print_shortly(rt: &HostRuntime, answer: Answer) -> io::Result<()> {
    match answer {
        Answer::Said(
            Shown {
                kind: Some(kind),
                ..
            },
        ) => print!(rt; " | {}", kind.text()),
        other => print!(rt; " | {other}"),
    }
}

fn end_of_run(rt: &HostRuntime, trouble: Trouble) -> Option<()> {
    match trouble {
        Trouble::Nothing => Some(()),
        _ => println!(rt; "").ok(),
    }
}
