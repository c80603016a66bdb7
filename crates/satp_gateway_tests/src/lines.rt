//! What a line asks of its side.

use crate::answer::Answer;
use crate::ask::Asked;
use crate::call::{Call, number_of};
use crate::reading::{digest_of, genesis_of, name_of, session_of, setup_of, terms_of};
use crate::said::Said;
use crate::side::Side;
use satp_base::{LedgerCore, Text};
use satp_gateway::Refused;
use std::alloc::Global;

/// None where no memory was found.
pub fn answer_call<C: LedgerCore>(
    alloc: Global,
    side: &mut Side<C>,
    said: &mut Said,
    call: Call<'_>,
) -> Option<Answer> {
    match call.word {
        "setup" => set_up(alloc, side, call),
        "open" => Some(open(alloc, side)),
        "show" | "entry" | "free" | "journal" | "count" => Some(look(side, call)),
        "fail" | "stop" | "restart" => trouble(side, call),
        "hear" => hear_said(alloc, side, said, call),
        "text" => hear(alloc, side, said, call.first.as_bytes()),
        "size" => hear_size(alloc, side, said, call),
        _ => ask(alloc, side, said, call),
    }
}

fn set_up<C: LedgerCore>(alloc: Global, side: &mut Side<C>, call: Call<'_>) -> Option<Answer> {
    let setup = setup_of(alloc, call)?;
    let genesis = genesis_of(alloc, call.rest)?;
    match side.set_up(alloc, &setup, &genesis) {
        Some(Ok(())) => Some(Answer::Done),
        Some(Err(fault)) => Some(Answer::NotSetUp(fault)),
        None => Some(Answer::Nothing),
    }
}

fn open<C: LedgerCore>(alloc: Global, side: &mut Side<C>) -> Answer {
    match side.open(alloc) {
        Ok(()) => Answer::Done,
        Err(fault) => Answer::NotOpened(fault),
    }
}

fn look<C: LedgerCore>(side: &mut Side<C>, call: Call<'_>) -> Answer {
    let found = match call.word {
        "show" => show(side, call),
        "entry" => entry(side, call),
        "free" => free(side, call),
        "journal" => journal(side),
        _ => Some(Answer::Number(side.count())),
    };
    found.unwrap_or(Answer::Nothing)
}

fn show<C: LedgerCore>(side: &Side<C>, call: Call<'_>) -> Option<Answer> {
    let view = side.show(session_of(call.first)?)?;
    Some(Answer::View(view))
}

fn entry<C: LedgerCore>(side: &Side<C>, call: Call<'_>) -> Option<Answer> {
    let entry = side.entry(session_of(call.first)?)?;
    Some(Answer::Entry(entry))
}

fn free<C: LedgerCore>(side: &Side<C>, call: Call<'_>) -> Option<Answer> {
    let amount = side.free(name_of(call.first)?, name_of(call.second)?)?;
    Some(Answer::Number(amount))
}

fn journal<C: LedgerCore>(side: &mut Side<C>) -> Option<Answer> {
    let mut into = [0; 16384];
    let count = side.journal(&mut into)?;
    let bytes = into.get(..count)?;
    Some(Answer::Bytes(digest_of(bytes)))
}

fn trouble<C: LedgerCore>(side: &mut Side<C>, call: Call<'_>) -> Option<Answer> {
    match call.word {
        "fail" => side.fail(number_of(call.first)).ok()?,
        "stop" => side.stop(
            number_of(call.first),
            u32::try_from(number_of(call.second)).unwrap_or(0),
        ),
        _ => side.restart().ok()?,
    }
    Some(Answer::Done)
}

fn hear_said<C: LedgerCore>(
    alloc: Global,
    side: &mut Side<C>,
    said: &mut Said,
    call: Call<'_>,
) -> Option<Answer> {
    let number = match call.first {
        "last" => said.length(),
        word => number_of(word) as usize,
    };
    let Some(text) = said.text(number) else {
        return Some(Answer::Nothing);
    };
    let body = Text::copy(alloc, text.bytes()).ok()?;
    hear(alloc, side, said, body.bytes())
}

fn hear_size<C: LedgerCore>(
    alloc: Global,
    side: &mut Side<C>,
    said: &mut Said,
    call: Call<'_>,
) -> Option<Answer> {
    let mut body = Vec::new(alloc);
    for _ in 0..number_of(call.first) {
        body.push(b'x').ok()?;
    }
    hear(alloc, side, said, &body)
}

fn hear<C: LedgerCore>(
    alloc: Global,
    side: &mut Side<C>,
    said: &mut Said,
    body: &[u8],
) -> Option<Answer> {
    let outcome = side.ask(alloc, Asked::Hear(body));
    note(alloc, said, outcome)
}

fn ask<C: LedgerCore>(
    alloc: Global,
    side: &mut Side<C>,
    said: &mut Said,
    call: Call<'_>,
) -> Option<Answer> {
    let Some(asked) = asked_of(call) else {
        return Some(Answer::Nothing);
    };
    let outcome = side.ask(alloc, asked);
    note(alloc, said, outcome)
}

fn asked_of(call: Call<'_>) -> Option<Asked<'_>> {
    let session = session_of(call.first)?;
    match call.word {
        "start" => Some(Asked::Start(session, terms_of(call)?)),
        "work" => Some(Asked::Work(session)),
        "abort" => Some(Asked::Abort(session)),
        "rescue" => Some(Asked::Rescue(session)),
        "closing" => Some(Asked::Closing(session)),
        _ => None,
    }
}

/// Adds what was said to the texts of the case. None where no memory was found.
fn note(
    alloc: Global,
    said: &mut Said,
    outcome: Option<Result<Option<Text>, Refused>>,
) -> Option<Answer> {
    match outcome {
        Some(Ok(Some(text))) => said.add(alloc, text),
        Some(Ok(None)) => Some(Answer::Silent),
        Some(Err(refused)) => Some(Answer::Refused(refused)),
        None => Some(Answer::Nothing),
    }
}
