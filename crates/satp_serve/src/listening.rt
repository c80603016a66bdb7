// The requests of a connection, answered one after the other.
ghost use Rattle.std.specs.Prelude.{◌≡◌, ◌<◌, ◌≤◌, ◌+◌, Ok, true, false, length};
ghost use Rattle.satp_http.specs.Heads.{room};
ghost use Rattle.satp_serve.specs.Exchange.{closes_at};
ghost use Rattle.satp_serve.specs.Feeding.{AnswersAll, AnswersOne, AnswersPiece, IfGoing, Steps, standing};

use crate::responder::{Halt, Responder};
use crate::say::{add_answer, add_fault};
use crate::turn::{ServeFault, Step, Turn};
use satp_base::{Memory, Text};
use satp_http::{Asked, HttpFault, Requests, Taken, interim_text};
use std::alloc::Global;

/// The most requests on one connection.
const MOST_REQUESTS: u32 = 64;

/// The bytes that are held, and how many requests were handed over.
#[derive(Drop)]
pub(crate) struct Listening {
    pub requests: Requests,
    pub count: u32,
}

/// Whether the connection closes after the answer to the next request.
fn closes(count: u32, asked: &Asked) -> bool
    requires { count < 64 }
    ensures { result ≡ closes_at count asked.now }
{
    asked.close || count + 1 == MOST_REQUESTS
}

/// Hands a request over, and adds its answer.
fn answer<S, G: Responder<S>>(
    alloc: Global,
    responder: &mut G,
    site: &mut S,
    count: u32,
    asked: &Asked,
    said: &mut Text,
) -> Result<Step, ServeFault>
    requires count { count < 64 }
    requires fits { G.fits responder.old site.old }
    ensures answers { AnswersOne G.replies (standing responder.old site.old count said.old false) asked.now (standing responder.new site.new (count + 1) said.new false) result }
    ensures fits { IfGoing result (G.fits responder.new site.new) }
    ensures most { IfGoing result (count + 1 < 64) }
{
    match responder.reply(alloc, site, asked.body.bytes()) {
        Ok(replied) => {
            let close = closes(count, asked);
            add_answer(alloc, replied.code, replied.body.bytes(), close, said)?;
            if close {
                return Ok(Step::Closes);
            }
            Ok(Step::Answered)
        }
        Err(Halt::Cut) => Ok(Step::Closes),
        Err(Halt::Site) => Err(ServeFault::Site),
        Err(Halt::Memory) => Err(ServeFault::Memory),
    }
}

impl Listening {
    /// Takes what stands at the front of the bytes, and adds what is said to it.
    fn step<S, G: Responder<S>>(
        &mut self,
        alloc: Global,
        responder: &mut G,
        site: &mut S,
        said: &mut Text,
    ) -> Result<Step, ServeFault>
        requires count { self.old.count < 64 }
        requires fits { G.fits responder.old site.old }
        ensures steps { Steps G.replies self.old.requests self.new.requests (standing responder.old site.old self.old.count said.old false) (standing responder.new site.new self.new.count said.new false) result }
        ensures fits { IfGoing result (G.fits responder.new site.new) }
        ensures most { IfGoing result (self.new.count < 64) }
        ensures range { self.new.count ≤ 64 }
    {
        match self.requests.take(alloc) {
            Ok(Taken::More) => Ok(Step::Waits),
            Ok(Taken::Continue) => {
                match said.append(interim_text()) {
                    Ok(()) => Ok(Step::Waits),
                    Err(Memory) => Err(ServeFault::Memory),
                }
            }
            Ok(Taken::Request(asked)) => {
                let count = self.count;
                self.count += 1;
                answer(alloc, responder, site, count, &asked, said)
            }
            Err(fault) => {
                if fault == HttpFault::Memory {
                    return Err(ServeFault::Memory);
                }
                add_fault(alloc, fault, said)?;
                Ok(Step::Closes)
            }
        }
    }

    /// Answers the requests that are whole.
    fn answer_all<S, G: Responder<S>>(
        &mut self,
        alloc: Global,
        responder: &mut G,
        site: &mut S,
        said: &mut Text,
    ) -> Result<Turn, ServeFault>
        requires count { self.old.count < 64 }
        requires fits { G.fits responder.old site.old }
        ensures answers { AnswersAll G.replies self.old.requests self.new.requests (standing responder.old site.old self.old.count said.old false) (standing responder.new site.new self.new.count said.new false) result }
        ensures fits { result ≡ Ok Turn.More → G.fits responder.new site.new }
        ensures most { result ≡ Ok Turn.More → self.new.count < 64 }
        ensures range { self.new.count ≤ 64 }
    {
        'answered: loop {
            match self.step(alloc, responder, site, said) {
                Ok(Step::Answered) => {}
                Ok(Step::Waits) => return Ok(Turn::More),
                Ok(Step::Closes) => return Ok(Turn::Close),
                Err(fault) => return Err(fault),
            }
        }
    }

    /// Takes a piece of what is heard, and adds what is said to it.
    pub(crate) fn answer_piece<S, G: Responder<S>>(
        &mut self,
        alloc: Global,
        responder: &mut G,
        site: &mut S,
        piece: &[u8],
        said: &mut Text,
    ) -> Result<Turn, ServeFault>
        requires count { self.old.count < 64 }
        requires room { length self.old.requests.held < room }
        requires fits { G.fits responder.old site.old }
        ensures answers { AnswersPiece G.replies self.old.requests self.new.requests (standing responder.old site.old self.old.count said.old false) (standing responder.new site.new self.new.count said.new false) piece.now result }
        ensures fits { result ≡ Ok Turn.More → G.fits responder.new site.new }
        ensures most { result ≡ Ok Turn.More → self.new.count < 64 }
        ensures room { result ≡ Ok Turn.More → length self.new.requests.held < room }
        ensures range { self.new.count ≤ 64 }
    {
        let mut rest = piece;
        'fed: loop {
            let count = self.requests.feed(rest);
            rest = &rest[count..];
            match self.answer_all(alloc, responder, site, said) {
                Ok(Turn::More) => {
                    if rest.is_empty() {
                        return Ok(Turn::More);
                    }
                }
                Ok(Turn::Close) => return Ok(Turn::Close),
                Err(fault) => return Err(fault),
            }
        }
    }
}
