ghost use Rattle.std.specs.Prelude.{◌≡◌, ◌∷◌, ◌++◌, ◌+◌, ◌≤◌, ℕ, List, [], IfOk, length};
ghost use Rattle.std.specs.Option.{option_copied};
ghost use Rattle.satp_base.specs.Chains.{role_at};
ghost use Rattle.satp_base.specs.Forms.{IsFormed};
ghost use Rattle.satp_base.specs.Signatures.{own};

use crate::signed::Signed;
use satp_base::{
    Body, Head, Kind, Link, Memory, Message, Name, Part, Role, SessionId, Tale, Text, Verdict,
};
use satp_canon::{link_of, write};
use satp_jws::{Key, sign};
use std::alloc::Global;
use std::marker::Model;

/// The most messages of a chain.
const PLACES: usize = 11;

/// The messages of a session's chain with their texts, in the order of their places. Each names the link of the text
/// before it. Their kinds are a tale.
#[derive(Drop)]
pub struct Chain {
    session: SessionId,
    recipient: Name,
    kept: Vec<Signed>,
    tale: Tale,
}

impl Model for Chain {
    ghost use Rattle.std.specs.Prelude.{◌≡◌, ◌≤◌, map, vec_capacity};
    ghost use Rattle.satp_base.specs.Canonical.{kind_of};
    ghost use Rattle.satp_base.specs.Tales.{IsTale};
    ghost use Rattle.satp_chain.specs.Chained.{Chained};

    ghost Value = { Chained };

    ghost view = { λ c. record { session = c.session; recipient = c.recipient; kept = c.kept.items } };

    ghost invariant = { λ c. (c.tale ≡ map (λ signed. kind_of signed.message.body) c.kept.items)
        × IsTale c.tale × (11 ≤ vec_capacity c.kept) };
}

impl Chain {
    ghost use Rattle.std.specs.Str.{bytes_eq};
    ghost use Rattle.satp_base.specs.Chains.{head_of, link_at, message_at};
    ghost use Rattle.satp_base.specs.Forms.{IsPart};
    ghost use Rattle.satp_base.specs.Canonical.{kind_of, part_kind};
    ghost use Rattle.satp_base.specs.Tales.{IsTale};
    ghost use Rattle.satp_chain.specs.Chained.{IsChain, entry_at, next_signed, pushed, state_of, tale_of, texts_in, turn_of};
    ghost use Rattle.satp_base.specs.Verdicts.{kept_verdict, maker_at, next_verdict, place_verdict, taker_at, text_at};
    ghost use Rattle.satp_chain.specs.Verdicts.{Follows, IsOfChain, verdict};

    /// The chain of no message, with room for all that may come.
    pub fn new(alloc: Global, session: SessionId, recipient: Name) -> Result<Chain, Memory>
        ensures { IfOk result (λ chain. chain ≡ record { session = session; recipient = recipient; kept = [] }) }
    {
        let kept = Vec::with_capacity(alloc, PLACES)?;
        Ok(Chain {
            session,
            recipient,
            kept,
            tale: Tale::new(),
        })
    }

    /// How long the chain is, and the links of its last two texts.
    pub fn head(&self) -> Head
        ensures head { result ≡ head_of (texts_in self.now) }
        ensures tale { IsTale (tale_of self.now) }
        ensures within { result.length ≤ 11 }
    {
        let length = self.tale.length();
        Head {
            length,
            last: self.link(length),
            before: self.link(length.saturating_sub(1)),
        }
    }

    /// The kinds of the messages.
    pub fn tale(&self) -> &Tale
        ensures { result.now ≡ tale_of self.now }
    {
        &self.tale
    }

    /// Whose place is next; none where the chain is whole.
    pub fn turn(&self) -> Option<Role>
        ensures { result ≡ turn_of self.now }
    {
        if self.tale.whole() {
            None
        } else {
            Some(role_at(self.tale.length() + 1))
        }
    }

    /// The message at a place, from 1; none where no message stands there.
    pub fn entry(&self, place: u8) -> Option<&Signed>
        ensures entry { option_copied result ≡ entry_at self.now place }
        ensures tale { IsTale (tale_of self.now) }
    {
        let kept = &self.kept;
        if place == 0 {
            return None;
        }
        kept.get(place as usize - 1)
    }

    /// What the chain says of a chain message of its session. A whole chain looks at its last two texts alone, so that it
    /// answers alike where the others are no longer kept.
    pub fn check(&self, signed: &Signed) -> Verdict
        requires { IsOfChain self.now signed.now }
        ensures verdict { result ≡ verdict self.now signed.now }
        ensures tale { IsTale (tale_of self.now) }
        // the chain's kinds are a tale with that of the next message too, and none with one that is off the tale
        ensures next { result ≡ Verdict.Next
            → IsTale (tale_of self.now ++ kind_of signed.now.message.body ∷ []) }
        ensures off { (place : ℕ) → result ≡ Verdict.OffTale place
            → ¬ IsTale (tale_of self.now ++ kind_of signed.now.message.body ∷ []) }
    {
        // What the clauses on tales rest on.
        let _tale = &self.tale;
        let Body::Chain {
            place,
            previous,
            part,
        } = &signed.message.body
        else {
            unreachable!();
        };
        self.place_verdict(
            &signed.message.sender,
            *place,
            previous,
            part.kind(),
            signed.text.bytes(),
        )
    }

    /// Adds the next message; the room for it was taken when the chain began.
    pub fn push(&mut self, signed: Signed)
        requires { Follows self.old signed }
        ensures pushed { self.new ≡ pushed self.old signed }
        ensures chain { (key : List ℕ) → IsChain self.old key → signed.text ≡ own key signed.message
            → IsChain self.new key }
    {
        self.tale.push(signed.message.body.kind());
        match self.kept.push(signed) {
            Ok(()) => (),
            Err(_) => unreachable!(),
        }
    }

    /// The next message, with this part, and its text under the key of the chain's texts. The sender is the side whose
    /// place it is.
    pub fn compose(&self, alloc: Global, key: &Key, part: Part) -> Result<Signed, Memory>
        requires tale { IsTale (tale_of self.now ++ part_kind part ∷ []) }
        requires formed { IsPart part }
        ensures next { IfOk result (λ signed. signed ≡ next_signed self.now key.now part) }
        ensures follows { IfOk result (λ signed. Follows self.now signed) }
    {
        let length = self.tale.length();
        write_signed(
            alloc,
            key,
            self.message(length + 1, self.link(length), part),
        )
    }

    /// What `compose` gives once `taken` is pushed.
    pub fn compose_on(
        &self,
        alloc: Global,
        key: &Key,
        taken: &Signed,
        part: Part,
    ) -> Result<Signed, Memory>
        requires taken { Follows self.now taken.now }
        requires tale { IsTale (tale_of (pushed self.now taken.now) ++ part_kind part ∷ []) }
        requires formed { IsPart part }
        ensures next { IfOk result
            (λ signed. signed ≡ next_signed (pushed self.now taken.now) key.now part) }
        ensures follows { IfOk result (λ signed. Follows (pushed self.now taken.now) signed) }
    {
        let place = self.tale.length() + 2;
        write_signed(
            alloc,
            key,
            self.message(place, link_of(taken.text.bytes()), part),
        )
    }

    /// The message with this part at a place.
    fn message(&self, place: u8, previous: Link, part: Part) -> Message
        ensures { result ≡ message_at self.now.session self.now.recipient place previous part }
    {
        Message {
            session: self.session,
            sender: self.maker(place),
            receiver: self.taker(place),
            body: Body::Chain {
                place,
                previous,
                part,
            },
        }
    }

    fn maker(&self, place: u8) -> Name
        ensures { result ≡ maker_at (state_of self.now) place }
    {
        match role_at(place) {
            Role::Origin => self.session.gateway,
            Role::Recipient => self.recipient,
        }
    }

    fn taker(&self, place: u8) -> Name
        ensures { result ≡ taker_at (state_of self.now) place }
    {
        match role_at(place) {
            Role::Origin => self.recipient,
            Role::Recipient => self.session.gateway,
        }
    }

    fn place_verdict(
        &self,
        sender: &Name,
        place: u8,
        previous: &Link,
        kind: Kind,
        text: &[u8],
    ) -> Verdict
        requires { 1 ≤ place }
        ensures { result ≡ place_verdict (state_of self.now) sender.now place previous.now kind text.now }
    {
        if sender.bytes() != self.maker(place).bytes() {
            return Verdict::WrongSender;
        }
        let length = self.tale.length();
        if place > length + 1 {
            return Verdict::Gap { length };
        }
        if place <= length {
            return self.kept_verdict(place, text);
        }
        self.next_verdict(place, previous, kind)
    }

    fn kept_verdict(&self, place: u8, text: &[u8]) -> Verdict
        requires low { 1 ≤ place }
        requires high { place ≤ length (texts_in self.now) }
        ensures { result ≡ kept_verdict (state_of self.now) place text.now }
    {
        if self.tale.whole() && place < self.tale.length().saturating_sub(1) {
            return Verdict::Again { place };
        }
        if self.is_kept(place, text) {
            return Verdict::Again { place };
        }
        Verdict::Other {
            place,
            kept: self.link(place),
        }
    }

    fn next_verdict(&self, place: u8, previous: &Link, kind: Kind) -> Verdict
        ensures { result ≡ next_verdict (state_of self.now) place previous.now kind }
    {
        let kept = self.link(self.tale.length());
        if *previous != kept {
            return Verdict::WrongPrevious { kept };
        }
        if self.tale.extends(kind) {
            Verdict::Next
        } else {
            Verdict::OffTale { place }
        }
    }

    /// Whether this text stands at a place.
    fn is_kept(&self, place: u8, text: &[u8]) -> bool
        requires low { 1 ≤ place }
        requires high { place ≤ length (texts_in self.now) }
        ensures { result ≡ bytes_eq text.now (text_at (texts_in self.now) place) }
    {
        match self.entry(place) {
            Some(signed) => text == signed.text.bytes(),
            None => false,
        }
    }

    /// The link of the text at a place, and the zero link where none stands there.
    fn link(&self, place: u8) -> Link
        ensures { result ≡ link_at (texts_in self.now) place }
    {
        match self.entry(place) {
            Some(signed) => link_of(signed.text.bytes()),
            None => Link([0; 32]),
        }
    }
}

/// Odd places are the origin's, even ones the recipient's.
fn role_at(place: u8) -> Role
    ensures { result ≡ role_at place }
{
    if place % 2 == 1 {
        Role::Origin
    } else {
        Role::Recipient
    }
}

/// The message with its canonical text under the key.
fn write_signed(alloc: Global, key: &Key, message: Message) -> Result<Signed, Memory>
    requires { IsFormed message }
    ensures { IfOk result (λ signed. signed ≡ record { message = message; text = own key.now message }) }
{
    let payload = write(alloc, &message)?;
    let text = sign(alloc, key, payload.bytes())?;
    Ok(Signed { message, text })
}
