ghost use Rattle.std.specs.Prelude.{◌≡◌, false, IfOk};
ghost use Rattle.satp_app.specs.Answer.{Answers, Due, answer_says, terms_proposed};
ghost use Rattle.satp_outcome.specs.Outside.{sink, source, streams};
ghost use Rattle.satp_outcome.specs.Streams.{StreamRule};
ghost use Rattle.satp_outcome.specs.Texts.{text_form};

use satp_base::{
    Body, Kind, Memory, Message, Name, Next, Part, Rec, Role, Sink, Source, Terms, Text, View,
};
use satp_canon::{CanonFault, link_of, read, write};
use satp_outcome::{InputEnd, LONGEST_INPUT, Outcome, Reply, conclude, read_to, text_on};
use satp_recipient::next;
use std::alloc::Global;

/// Reads a proposal for the gateway of this name and prints its receipt.
pub(crate) fn answer<I: Source, K: Sink>(
    alloc: Global,
    name: Name,
    input: &mut I,
    out: &mut K,
) -> Outcome
    requires over { I.is_over input.old ≡ false }
    requires failed { K.has_failed out.old ≡ false }
    ensures { StreamRule text_form (answer_says name)
        (streams (source I.faults I.left I.is_over input.old) (sink K.faults K.taken K.has_failed out.old))
        (streams (source I.faults I.left I.is_over input.new) (sink K.faults K.taken K.has_failed out.new))
        result }
{
    match read_to(alloc, input, LONGEST_INPUT) {
        Ok(held) => match text_on(held.bytes()) {
            Some(text) => conclude(out, reply(alloc, name, text)),
            None => Outcome::Input(InputEnd::Long),
        },
        Err(outcome) => outcome,
    }
}

/// The reply to a text.
fn reply(alloc: Global, name: Name, text: &[u8]) -> Result<Reply, Memory>
    ensures { IfOk result (answer_says name text.now) }
{
    let message = match read(alloc, text) {
        Ok(message) => message,
        Err(CanonFault::Memory) => return Err(Memory),
        Err(fault) => return Ok(Reply::Refuses(InputEnd::Text(fault))),
    };
    let Some(terms) = terms_proposed(&message) else {
        return Ok(Reply::Refuses(InputEnd::Kind));
    };
    if message.receiver != name {
        return Ok(Reply::Refuses(InputEnd::Receiver));
    }
    match receipt_line(alloc, name, terms, &message, text) {
        Ok(line) => Ok(Reply::Lines(line)),
        Err(Memory) => Err(Memory),
    }
}

/// The terms that a message proposes; none where it is no proposal.
fn terms_proposed(message: &Message) -> Option<Terms>
    ensures { result ≡ terms_proposed message.now.body }
{
    match &message.body {
        Body::Chain {
            part: Part::Proposal(terms),
            ..
        } => Some(*terms),
        _ => None,
    }
}

/// The kind of message that a recipient makes next after a proposal of these terms.
fn kind_due(terms: Terms) -> Kind
    ensures due { Due terms result }
    ensures receipt { result ≡ Kind.ProposalReceipt }
{
    match next(&View::begin(Role::Recipient, terms)) {
        Next::Append(Rec::Made(kind)) => kind,
        _ => unreachable!(),
    }
}

/// The receipt of the proposal with this text, and a newline.
fn receipt_line(
    alloc: Global,
    name: Name,
    terms: Terms,
    proposal: &Message,
    text: &[u8],
) -> Result<Text, Memory>
    ensures { IfOk result (Answers name terms proposal.now text.now) }
{
    let receipt = Message {
        session: proposal.session,
        sender: name,
        receiver: proposal.sender,
        body: Body::Chain {
            place: 2,
            previous: link_of(text),
            part: Part::Plain(kind_due(terms)),
        },
    };
    let mut line = write(alloc, &receipt)?;
    line.append(b"\n")?;
    Ok(line)
}
