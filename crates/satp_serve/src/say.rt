// Answers that are added to what is said.
ghost use Rattle.std.specs.Prelude.{◌≡◌, ◌≢◌, ◌⊎◌, ◌++◌, [], true, IsTrue, IfOk, OnOk, OnErr};
ghost use Rattle.satp_http.specs.Written.{is_answer_code, response_text};
ghost use Rattle.satp_serve.specs.Faults.{fault_code, fault_words};
ghost use Rattle.satp_serve.specs.Feeding.{halt_answer, halt_words};
ghost use Rattle.satp_phrases.specs.Phrases.{refusal_body, words_of};

use crate::fault::{fault_code, fault_phrase};
use crate::turn::ServeFault;
use satp_base::{Memory, Text};
use satp_http::{HttpFault, write_response};
use satp_phrases::{Phrase, plain};
use std::alloc::Global;

/// Adds an answer to what is said. Nothing is added where no memory is found.
pub(crate) fn add_answer(
    alloc: Global,
    code: u16,
    body: &[u8],
    close: bool,
    said: &mut Text,
) -> Result<(), Memory>
    requires code { IsTrue (is_answer_code code) }
    requires body { code ≡ 204 → body.now ≡ [] }
    ensures ok { OnOk result (said.new ≡ said.old ++ response_text code body.now close) }
    ensures err { OnErr result (said.new ≡ said.old) }
{
    let answer = write_response(alloc, code, body, close)?;
    said.append(answer.bytes())
}

/// Adds an answer that refuses, after which this side closes the connection.
fn add_refusal(alloc: Global, code: u16, phrase: Phrase, said: &mut Text) -> Result<(), Memory>
    requires code { IsTrue (is_answer_code code) }
    requires body { code ≢ 204 }
    ensures ok { OnOk result (said.new ≡ said.old ++ response_text code (refusal_body (words_of phrase)) true) }
    ensures err { OnErr result (said.new ≡ said.old) }
{
    let body = phrase.body(alloc)?;
    add_answer(alloc, code, body.bytes(), true, said)
}

/// Adds the answer to a fault of a request.
pub(crate) fn add_fault(alloc: Global, fault: HttpFault, said: &mut Text) -> Result<(), Memory>
    ensures ok { OnOk result (said.new ≡ said.old ++ response_text (fault_code fault) (refusal_body (fault_words fault)) true) }
    ensures err { OnErr result (said.new ≡ said.old) }
{
    add_refusal(alloc, fault_code(fault), fault_phrase(fault), said)
}

/// Adds the answer to a request that has none of its own, where memory for it is found.
pub(crate) fn add_halt(alloc: Global, fault: ServeFault, said: &mut Text)
    ensures { (said.new ≡ said.old ++ halt_answer fault) ⊎ (said.new ≡ said.old) }
{
    match add_refusal(alloc, 503, halt_phrase(fault), said) {
        Ok(()) => {}
        Err(Memory) => {}
    }
}

/// The words of what no answer came for.
fn halt_phrase(fault: ServeFault) -> Phrase
    ensures { words_of result ≡ halt_words fault }
{
    match fault {
        ServeFault::Site => plain(b"site"),
        ServeFault::Memory => plain(b"memory"),
    }
}
