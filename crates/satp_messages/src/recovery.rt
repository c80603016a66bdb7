ghost use Rattle.std.specs.Prelude.{◌≡◌, ◌+◌, ◌-◌, ◌≤◌, [], IfOk, Some, drop, length};
ghost use Rattle.satp_base.specs.Forms.{IsBody};
ghost use Rattle.satp_base.specs.Signatures.{own};
ghost use Rattle.satp_chain.specs.Chained.{IsChain, texts_in};
ghost use Rattle.satp_log.specs.Journals.{party_of};
ghost use Rattle.satp_sides.specs.Calls.{recover_text, success_text, text_of, update_text};
ghost use Rattle.satp_sides.specs.Moves.{message_from};
ghost use Rattle.satp_sides.specs.Points.{Party};

use satp_base::{Body, Memory, Message, SessionId, Text, Texts};
use satp_canon::write;
use satp_chain::Chain;
use satp_jws::sign;
use satp_log::Log;
use std::alloc::Global;

/// What the side that starts a recovery round says of its chain.
pub fn recover(alloc: Global, log: &Log, session: SessionId, chain: &Chain) -> Result<Text, Memory>
    ensures { (p : Party) → p ≡ party_of log.now.setup → IfOk result (λ text. text ≡ recover_text p session (texts_in chain.now)) }
{
    let head = chain.head();
    let body = Body::Recover {
        length: head.length,
        last: head.last,
    };
    signed(alloc, log, session, body)
}

/// What a side that is asked for its chain answers to a peer whose chain has `given` messages: how long its own chain is,
/// and the texts after those of the peer, of which an update carries two at most.
pub fn update(
    alloc: Global,
    log: &Log,
    session: SessionId,
    chain: &Chain,
    given: u8,
) -> Result<Text, Memory>
    requires few { length (texts_in chain.now) ≤ given + 2 }
    requires chain { IsChain chain.now log.now.setup.key }
    ensures { (p : Party) → p ≡ party_of log.now.setup → IfOk result (λ text. text ≡ update_text p session given (texts_in chain.now)) }
{
    let entries = texts_after(alloc, chain, given)?;
    let body = Body::Update {
        length: chain.tale().length(),
        entries,
    };
    signed(alloc, log, session, body)
}

/// What a side that is asked for its chain answers where no record of it names the session: a chain of no messages.
pub fn nothing_known(alloc: Global, log: &Log, session: SessionId) -> Result<Text, Memory>
    ensures { (p : Party) → p ≡ party_of log.now.setup → IfOk result (λ text. text ≡ update_text p session 0 []) }
{
    let body = Body::Update {
        length: 0,
        entries: Texts::new(alloc),
    };
    signed(alloc, log, session, body)
}

/// What the side that started a recovery round says at its end, when both chains are one.
pub fn success(alloc: Global, log: &Log, session: SessionId, chain: &Chain) -> Result<Text, Memory>
    ensures { (p : Party) → p ≡ party_of log.now.setup → IfOk result (λ text. text ≡ success_text p session (texts_in chain.now)) }
{
    let head = chain.head();
    let body = Body::Success {
        length: head.length,
        last: head.last,
    };
    signed(alloc, log, session, body)
}

/// The text of a message from this gateway to its peer.
fn signed(alloc: Global, log: &Log, session: SessionId, body: Body) -> Result<Text, Memory>
    requires { IsBody body }
    ensures { IfOk result (λ text. text ≡ own log.now.setup.key (message_from (party_of log.now.setup) session body)) }
{
    let setup = log.setup();
    let message = Message {
        session,
        sender: setup.name,
        receiver: setup.peer,
        body,
    };
    let payload = write(alloc, &message)?;
    sign(alloc, log.key(), payload.bytes())
}

/// The chain's texts after its first `given`; none where it has no more.
fn texts_after(alloc: Global, chain: &Chain, given: u8) -> Result<Texts, Memory>
    ensures { IfOk result (λ texts. texts ≡ drop given (texts_in chain.now)) }
{
    let mut texts = Texts::new(alloc);
    for index in given..chain.tale().length() {
        let text = text_at(alloc, chain, index + 1)?;
        match texts.push(text) {
            Ok(()) => (),
            Err(_) => return Err(Memory),
        }
    }
    Ok(texts)
}

/// A copy of the text at a place of the chain, from 1.
fn text_at(alloc: Global, chain: &Chain, place: u8) -> Result<Text, Memory>
    requires low { 1 ≤ place }
    requires high { place ≤ length (texts_in chain.now) }
    ensures { IfOk result (λ text. Some text ≡ text_of (texts_in chain.now) place) }
{
    match chain.entry(place) {
        Some(signed) => Text::copy(alloc, signed.text.bytes()),
        None => unreachable!(),
    }
}
