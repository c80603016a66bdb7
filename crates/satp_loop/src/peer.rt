// The side that a drive speaks with.
ghost use Rattle.std.specs.Prelude.{◌≡◌, ◌⊎◌, ◌≢◌, Ok, Err, None, true, false, IfOk, OnOk, OnErr};
ghost use Rattle.satp_loop.specs.Mails.{noted};
ghost use Rattle.satp_loop.specs.Peers.{SaysBoth, SaysFirst, Says, after_answer, after_second, heard, text_in};
ghost use Rattle.satp_serve.specs.Replies.{IsReplied};

use crate::mail::Mail;
use crate::troubles::Passage;
use satp_base::{Memory, Site, Text};
use satp_gateway::Gateway;
use satp_serve::{Halt, Replied, Responder};
use std::alloc::Global;

/// The side that a drive speaks with: its gateway, and what was said so far.
#[derive(Drop)]
pub struct Peer {
    pub gateway: Gateway,
    pub mail: Mail,
}

/// Says an answer: its text is the next message.
fn say(alloc: Global, mail: &mut Mail, replied: Replied) -> Result<Replied, Halt>
    ensures says { Says replied None mail.old result mail.new }
    ensures form { IsReplied replied → IfOk result IsReplied }
{
    if replied.code != 200 {
        return Ok(replied);
    }
    match mail.answer(alloc, replied.body.bytes()) {
        Ok(Passage::Lost) => Err(Halt::Cut),
        Ok(_) => Ok(replied),
        Err(Memory) => Err(Halt::Memory),
    }
}

/// Notes the text of an answer that goes nowhere.
fn note_second(mail: &mut Mail, second: Replied) -> Result<(), Memory>
    ensures ok { OnOk result (mail.new ≡ after_second (text_in second) mail.old) }
    ensures err { OnErr result (mail.new ≡ mail.old) }
{
    if second.code != 200 {
        return Ok(());
    }
    mail.note(second.body)
}

/// No memory was found for an answer.
fn is_memory(heard: &Result<Replied, Halt>) -> bool
    ensures yes { result ≡ true → heard.now ≡ Err Halt.Memory }
    ensures no { result ≡ false → heard.now ≢ Err Halt.Memory }
{
    match heard {
        Err(Halt::Memory) => true,
        _ => false,
    }
}

/// Says an answer, and notes the text of the second one.
fn say_both(
    alloc: Global,
    mail: &mut Mail,
    replied: Replied,
    second: Result<Replied, Halt>,
) -> Result<Replied, Halt>
    ensures says { SaysBoth replied second mail.old result mail.new }
    ensures form { IsReplied replied → IfOk result IsReplied }
{
    match second {
        Ok(second) => {
            let heard = say(alloc, mail, replied);
            if is_memory(&heard) {
                return heard;
            }
            match note_second(mail, second) {
                Ok(()) => heard,
                Err(Memory) => Err(Halt::Memory),
            }
        }
        Err(Halt::Memory) => Err(Halt::Memory),
        Err(_) => say(alloc, mail, replied),
    }
}

impl<S: Site> Responder<S> for Peer {
    ghost use Rattle.satp_serve.specs.GatewayReplies.{IsWithin, RepliesAt, site_view};
    ghost use Rattle.satp_loop.specs.Peers.{PeerReplies};

    ghost fits = { λ p s. IsWithin p.gateway (S.told s) };

    ghost replies = { PeerReplies (RepliesAt (site_view S.told S.book S.faults) S.beside) };

    /// A body is the next message. A message that is lost isn't handed over, and the connection ends in its place; one that comes twice is handed over twice in a row, and the text of
    /// the second answer counts as sent and goes nowhere. A text that answers is the next message in its turn.
    ///
    /// `Site` is that of the gateway, for a message that was handed over first. `Memory` is the gateway's, or comes where no memory is found to note a text.
    fn reply(&mut self, alloc: Global, site: &mut S, body: &[u8]) -> Result<Replied, Halt> {
        let passage = self.mail.passage();
        let Ok(text) = Text::copy(alloc, body) else {
            return Err(Halt::Memory);
        };
        let Ok(()) = self.mail.pass(text) else {
            return Err(Halt::Memory);
        };
        match passage {
            Passage::Lost => Err(Halt::Cut),
            Passage::Once => {
                let replied = self.gateway.reply(alloc, site, body)?;
                say(alloc, &mut self.mail, replied)
            }
            Passage::Twice => {
                let replied = self.gateway.reply(alloc, site, body)?;
                let second = self.gateway.reply(alloc, site, body);
                say_both(alloc, &mut self.mail, replied, second)
            }
        }
    }
}
