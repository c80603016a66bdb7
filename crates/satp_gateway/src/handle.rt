//! What a gateway does with a body that its peer sent.

ghost use Rattle.std.specs.Prelude.{◌≡◌, ◌≢◌, ◌≤◌, false, IfErr, OnOk, List, Option};
ghost use Rattle.satp_base.specs.Streams.{Rose};
ghost use Rattle.satp_base.specs.declared.message.Message.{Message as TheMessage};
ghost use Rattle.satp_points.specs.Answers.{Answers, Breaking, Unchanged};
ghost use Rattle.satp_points.specs.States.{GateWithin, Holds, is_broken, tells};
ghost use Rattle.satp_records.specs.declared.stored.Setup.{Setup as TheSetup};
ghost use Rattle.satp_sides.specs.Calls.{Hears};
ghost use Rattle.satp_sides.specs.Points.{Stored};
ghost use Rattle.satp_gateway.specs.Handling.{HandleReads, HearsRecover, IsHeardBy, reply_of, text_in, unheard_as};

use crate::gateway::Gateway;
use satp_base::{Site, Text};
use satp_decisions as decide;
use satp_log::{Unheard, hear};
use satp_points::Refused;
use std::alloc::Global;

/// The most bytes of a body.
const MOST_BODY: usize = 8192;

/// What a gateway replies to a body.
#[derive(Drop)]
pub enum Reply {
    /// This text.
    Message(Text),
    /// Nothing.
    Nothing,
}

impl Gateway {
    /// Hears a body that the peer sent, stores what it asks for, does the due work, and replies.
    ///
    /// The tests in their order: `Broken`; `Size` over 8,192 bytes; `Jws`, `Header` and `Body` by the first fault of the signed text; `Receiver` where it isn't from the peer to this gateway;
    /// `Strange` where its session is of neither gateway, or of this one and no record names it; `Chain` where the session's chain has another message there, or can't go on by it;
    /// `Recovery` where the chains can't be those of one session, or an entry isn't the message that is missing; `Full` where 2,048 sessions were accepted here; `Memory`; and `Site` in the writing.
    /// `Memory` may also come while the body is read. Each but `Site` leaves all as it was, but that no memory may be found for the answer to a `recover`: then the work stands.
    pub fn handle<S: Site>(
        &mut self,
        alloc: Global,
        site: &mut S,
        body: &[u8],
    ) -> Result<Reply, Refused>
        requires within { is_broken self.old ≡ false → GateWithin self.old (S.told site.old) }
        ensures read { (setup : TheSetup) (xs : List Stored) → Holds self.old setup xs → HandleReads setup.key body.now result }
        ensures answers { (m : TheMessage) (e : Option TheMessage) → IsHeardBy self.old body.now m e
            → Answers (Hears m body.now e) self.old self.new (tells (S.told site.old) (S.book site.old)) (tells (S.told site.new) (S.book site.new)) (reply_of result) }
        ensures unchanged { Unchanged (HearsRecover self.old body.now) self.old self.new (tells (S.told site.old) (S.book site.old)) (tells (S.told site.new) (S.book site.new)) (reply_of result) }
        ensures breaking { Breaking self.old self.new (reply_of result) }
        ensures within { is_broken self.new ≡ false → GateWithin self.new (S.told site.new) }
        ensures beside { S.beside site.old site.new }
        ensures later { S.faults site.old ≤ S.faults site.new }
        ensures cause { IfErr result (λ fault. fault ≡ Refused.Site → Rose (S.faults site.old) (S.faults site.new)) }
        ensures kept { OnOk result (S.faults site.new ≡ S.faults site.old) }
        ensures still { IfErr result (λ fault. fault ≢ Refused.Site → S.faults site.new ≡ S.faults site.old) }
    {
        if self.register.is_broken() {
            return Err(Refused::Broken);
        }
        if body.len() > MOST_BODY {
            return Err(Refused::Size { length: body.len() });
        }
        let heard = match hear(alloc, self.register.log().key(), body) {
            Ok(heard) => heard,
            Err(fault) => return Err(unheard_as(fault)),
        };
        let decision = decide::message(alloc, self.register.log(), heard)?;
        let text = self.register.carry_out(alloc, site, decision)?;
        Ok(as_reply(text))
    }
}

/// The refusal of a text that no message is heard from.
fn unheard_as(fault: Unheard) -> Refused
    ensures { result ≡ unheard_as fault }
{
    match fault {
        Unheard::Jws { fault } => Refused::Jws { fault },
        Unheard::Header => Refused::Header,
        Unheard::Body { fault } => Refused::Body { fault },
        Unheard::Memory => Refused::Memory,
    }
}

/// A reply with this text, or without one.
fn as_reply(text: Option<Text>) -> Reply
    ensures { text_in result ≡ text }
{
    match text {
        Some(text) => Reply::Message(text),
        None => Reply::Nothing,
    }
}
