// What two sides have said to each other.
ghost use Rattle.std.specs.Prelude.{◌≡◌, None, IfOk, OnOk, OnErr};
ghost use Rattle.std.specs.Option.{option_copied};
ghost use Rattle.satp_loop.specs.Mails.{answered, begun, next, no_mail, noted, passage, passed, text_at};

use crate::troubles::{Passage, Troubles, passage_of};
use satp_base::{Memory, Text, Texts};
use std::alloc::Global;

/// What two sides have said to each other, over all commands so far.
///
/// A message of a command is a text that one side posts, or a text that answers one; a refusal and an answer of nothing are none. Each counts as sent, and has the next number, from 1 on.
#[derive(Drop)]
pub struct Mail {
    sent: Texts,
    messages: u64,
    troubles: Troubles,
    again: Option<Text>,
}

impl Mail {
    /// Nothing was said yet.
    pub fn new(alloc: Global) -> Mail
        ensures { result ≡ no_mail }
    {
        Mail {
            sent: Texts::new(alloc),
            messages: 0,
            troubles: Troubles::none(),
            again: None,
        }
    }

    /// Begins a command, whose messages have numbers from 1 on. What was sent before stays.
    pub fn begin(&mut self, troubles: Troubles)
        ensures { self.new ≡ begun troubles self.old }
    {
        self.messages = 0;
        self.troubles = troubles;
        self.again = None;
    }

    /// Notes a text that is sent outside a conversation. `Memory` leaves all as it was.
    pub fn note(&mut self, text: Text) -> Result<(), Memory>
        ensures ok { OnOk result (self.new ≡ noted text self.old) }
        ensures err { OnErr result (self.new ≡ self.old) }
    {
        match self.sent.push(text) {
            Ok(()) => Ok(()),
            Err(_) => Err(Memory),
        }
    }

    /// The text of a number, in the order of sending, from 1 on. None is there at 0, and after the last one.
    pub fn text(&self, number: u32) -> Option<&Text>
        ensures { option_copied result ≡ text_at self.now.sent number }
    {
        if number == 0 {
            return None;
        }
        self.sent.get(number as usize - 1)
    }

    /// Takes the answer that the driving side is to be handed once more.
    pub fn take_again(&mut self) -> Option<Text>
        ensures taken { result ≡ self.old.again }
        ensures left { self.new ≡ record self.old { again = None } }
    {
        self.again.take()
    }

    /// How the next message passes.
    pub(crate) fn passage(&self) -> Passage
        ensures { result ≡ passage self.now }
    {
        passage_of(self.troubles, self.messages.saturating_add(1))
    }

    /// A text is the next message, and counts as sent however it passes. `Memory` leaves all as it was.
    pub(crate) fn pass(&mut self, text: Text) -> Result<(), Memory>
        ensures ok { OnOk result (self.new ≡ passed text self.old) }
        ensures err { OnErr result (self.new ≡ self.old) }
    {
        self.note(text)?;
        self.messages = self.messages.saturating_add(1);
        Ok(())
    }

    /// A text is the next message, and answers one: where it is to come twice, it is kept. `Memory` leaves all as it was.
    pub(crate) fn answer(&mut self, alloc: Global, text: &[u8]) -> Result<Passage, Memory>
        ensures passes { IfOk result (λ p. p ≡ passage self.old) }
        ensures ok { OnOk result (self.new ≡ answered text.now self.old) }
        ensures err { OnErr result (self.new ≡ self.old) }
    {
        let passage = self.passage();
        let sent = Text::copy(alloc, text)?;
        if passage == Passage::Twice {
            let again = Text::copy(alloc, text)?;
            self.pass(sent)?;
            self.again = Some(again);
            return Ok(passage);
        }
        self.pass(sent)?;
        Ok(passage)
    }
}
