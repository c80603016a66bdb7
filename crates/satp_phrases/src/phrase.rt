// The words in which a refusal is told.
ghost use Rattle.std.specs.Prelude.{◌≡◌, ◌++◌, [], ◌∷◌, IfOk, OnOk, OnErr, decimal};
ghost use Rattle.satp_base.specs.Canonical.{member_text};
ghost use Rattle.satp_base.specs.Values.{session_text};
ghost use Rattle.satp_phrases.specs.Phrases.{detail_text, words_of, phrase_text, refusal_body};

use itoa::Buffer;
use satp_base::{MemberName, Memory, SessionId, Text};
use std::alloc::Global;

/// What a refusal speaks of.
#[derive(Clone, Copy, Debug, PartialEq, Eq)]
pub enum Detail {
    Nothing,
    Number { number: u64 },
    Member { member: MemberName },
    Session { session: SessionId },
}

/// The words of a refusal. What it speaks of follows them.
#[derive(Clone, Copy, Debug, PartialEq, Eq)]
pub struct Phrase {
    pub text: &'static [u8],
    pub detail: Detail,
}

impl Phrase {
    /// Adds the words and what follows them to a text. Where no memory is found some of it may have been added.
    pub fn append_to(&self, text: &mut Text) -> Result<(), Memory>
        ensures { OnOk result (text.new ≡ text.old ++ phrase_text (words_of self.now)) }
    {
        text.append(self.text)?;
        append_detail(text, self.detail)
    }

    /// The body of an answer that refuses: the words and what follows them, and a line feed.
    pub fn body(&self, alloc: Global) -> Result<Text, Memory>
        ensures { IfOk result (λ body. body ≡ refusal_body (words_of self.now)) }
    {
        let mut body = Text::copy(alloc, b"")?;
        self.append_to(&mut body)?;
        body.append(b"\n")?;
        Ok(body)
    }
}

/// Words that speak of nothing else.
pub fn plain(text: &'static [u8]) -> Phrase
    ensures { words_of result ≡ record { text = text.now; detail = Detail.Nothing } }
{
    Phrase {
        text,
        detail: Detail::Nothing,
    }
}

/// Words that speak of a number.
pub fn numbered(text: &'static [u8], number: u64) -> Phrase
    ensures { words_of result ≡ record { text = text.now; detail = Detail.Number number } }
{
    Phrase {
        text,
        detail: Detail::Number { number },
    }
}

fn append_detail(text: &mut Text, detail: Detail) -> Result<(), Memory>
    ensures { OnOk result (text.new ≡ text.old ++ detail_text detail) }
{
    match detail {
        Detail::Nothing => Ok(()),
        Detail::Number { number } => append_number(text, number),
        Detail::Member { member } => text.append(member.text().as_bytes()),
        Detail::Session { session } => append_session(text, session),
    }
}

/// Adds a number, in decimal. The text is as it was where no memory is found.
pub fn append_number(text: &mut Text, number: u64) -> Result<(), Memory>
    ensures ok { OnOk result (text.new ≡ text.old ++ decimal number) }
    ensures err { OnErr result (text.new ≡ text.old) }
{
    let mut digits = Buffer::new();
    text.append(digits.format(number).as_bytes())
}

/// Adds the name of a session. Where no memory is found some of it may have been added.
pub fn append_session(text: &mut Text, session: SessionId) -> Result<(), Memory>
    ensures { OnOk result (text.new ≡ text.old ++ session_text session) }
{
    text.append(session.gateway.bytes())?;
    text.append(b".")?;
    append_number(text, session.number as u64)
}
