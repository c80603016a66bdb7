// A gateway answers the bodies of requests.
ghost use Rattle.std.specs.Prelude.{[], IfOk};
ghost use Rattle.satp_phrases.specs.Phrases.{refusal_body};
ghost use Rattle.satp_phrases.specs.Refusals.{refusal_words};
ghost use Rattle.satp_serve.specs.Codes.{refusal_code};
ghost use Rattle.satp_serve.specs.GatewayReplies.{AnswersWith, ReplyAnswers, answer};
ghost use Rattle.satp_serve.specs.Replies.{IsReplied};

use crate::code::refusal_code;
use crate::responder::{Halt, Replied, Responder};
use satp_base::{Memory, Site, Text};
use satp_gateway::{Gateway, Reply};
use satp_phrases::refusal_phrase;
use satp_points::Refused;
use std::alloc::Global;

impl<S: Site> Responder<S> for Gateway {
    ghost use Rattle.satp_serve.specs.GatewayReplies.{IsWithin, RepliesAt, site_view};

    ghost fits = { λ g s. IsWithin g (S.told s) };

    ghost replies = { RepliesAt (site_view S.told S.book S.faults) S.beside };

    /// Hands a body to the gateway, and answers what it replies.
    ///
    /// A text is answered with code 200, nothing with 204, and a refusal with its code and its words. `Site` is that of the gateway. `Memory` is, or comes where no memory is
    /// found for the answer to a refusal or to nothing.
    fn reply(&mut self, alloc: Global, site: &mut S, body: &[u8]) -> Result<Replied, Halt> {
        answer(alloc, self.handle(alloc, site, body))
    }
}

/// The answer to a gateway's reply.
fn answer(alloc: Global, reply: Result<Reply, Refused>) -> Result<Replied, Halt>
    ensures answers { ReplyAnswers reply result }
    ensures form { IfOk result IsReplied }
{
    match reply {
        Ok(Reply::Message(text)) => Ok(Replied {
            code: 200,
            body: text,
        }),
        Ok(Reply::Nothing) => answer_nothing(alloc),
        Err(Refused::Site) => Err(Halt::Site),
        Err(Refused::Memory) => Err(Halt::Memory),
        Err(refused) => answer_refusal(alloc, refused),
    }
}

/// The answer where nothing is replied.
fn answer_nothing(alloc: Global) -> Result<Replied, Halt>
    ensures { AnswersWith (answer 204 []) result }
{
    match Text::copy(alloc, b"") {
        Ok(body) => Ok(Replied { code: 204, body }),
        Err(Memory) => Err(Halt::Memory),
    }
}

/// The answer to a refusal: its words under its code.
fn answer_refusal(alloc: Global, refused: Refused) -> Result<Replied, Halt>
    ensures answers { AnswersWith (answer (refusal_code refused) (refusal_body (refusal_words refused))) result }
    ensures form { IfOk result IsReplied }
{
    match refusal_phrase(refused).body(alloc) {
        Ok(body) => Ok(Replied {
            code: refusal_code(refused),
            body,
        }),
        Err(Memory) => Err(Halt::Memory),
    }
}
