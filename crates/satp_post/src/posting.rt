// A text that is posted, and its answer.
ghost use Rattle.std.specs.Prelude.{◌≡◌, ◌≤◌, ◌<◌, true, length};
ghost use Rattle.satp_base.specs.Values.{address_text};
ghost use Rattle.satp_http.specs.Heads.{room};
ghost use Rattle.satp_post.specs.Posting.{HearsAnswer, HearsMore, Posts};

use crate::fault::{PostFault, fault_of};
use satp_base::{Address, Wire};
use satp_http::{Answered, Responses, write_request};
use satp_wires::say_all;
use std::alloc::Global;

/// The most bytes that `Responses` holds.
const MOST_HELD: usize = 16_384;

/// The most bytes that are read at once.
const PIECE: usize = 1024;

/// Hears more, where no answer is whole.
fn hear_more<W: Wire>(wire: &mut W, responses: &mut Responses) -> Result<(), PostFault>
    requires open { W.is_open wire.old ≡ true }
    requires room { length responses.old.held < room }
    ensures hears { HearsMore responses.old responses.new (W.told wire.old) (W.told wire.new) (W.faults wire.old) (W.faults wire.new) result }
    ensures open { W.is_open wire.new ≡ true }
    ensures listens { W.listens wire.new ≡ W.listens wire.old }
    ensures beside { W.beside wire.old wire.new }
    ensures later { W.faults wire.old ≤ W.faults wire.new }
{
    let mut piece = [0; PIECE];
    let room = (MOST_HELD - responses.held()).min(PIECE);
    let Ok(count) = wire.read(&mut piece[..room]) else {
        return Err(PostFault::Wire { said: true });
    };
    if count == 0 {
        return Err(PostFault::Early);
    }
    responses.feed(&piece[..count]);
    Ok(())
}

/// Hears one answer. Each read brings a byte or is the last.
fn hear<W: Wire>(
    alloc: Global,
    wire: &mut W,
    responses: &mut Responses,
) -> Result<Answered, PostFault>
    requires open { W.is_open wire.old ≡ true }
    ensures hears { HearsAnswer responses.old responses.new (W.told wire.old) (W.told wire.new) (W.faults wire.old) (W.faults wire.new) result }
    ensures open { W.is_open wire.new ≡ true }
    ensures listens { W.listens wire.new ≡ W.listens wire.old }
    ensures beside { W.beside wire.old wire.new }
    ensures later { W.faults wire.old ≤ W.faults wire.new }
{
    'heard: loop {
        match responses.take(alloc) {
            Ok(Some(answered)) => return Ok(answered),
            Ok(None) => hear_more(wire, responses)?,
            Err(fault) => return Err(fault_of(fault)),
        }
    }
}

/// Says the request that posts a text to `/satp` of the host (RFC 9112, section 3), and hears its answer.
///
/// Answers of code 100 are passed over, at most sixteen in a row. Bytes behind the answer stay in `responses`, and are looked at
/// with the next request. Nothing is read while an answer there is whole.
///
/// `Wire` comes where a call on the wire failed, and only there. `Early` comes where the peer ended the connection before the whole
/// answer, and `NotHttp` where the bytes show a fault of it, as `Responses::take` says. `Memory` comes where no memory was found:
/// before the request was said, or for a whole answer, which stays in `responses`. After `Wire`, `Early` and `NotHttp` nothing more
/// is read.
pub fn post<W: Wire>(
    alloc: Global,
    wire: &mut W,
    responses: &mut Responses,
    at: &Address,
    text: &[u8],
) -> Result<Answered, PostFault>
    requires open { W.is_open wire.old ≡ true }
    ensures posts { Posts (address_text at.now) text.now responses.old responses.new (W.told wire.old) (W.told wire.new) (W.faults wire.old) (W.faults wire.new) result }
    ensures open { W.is_open wire.new ≡ true }
    ensures listens { W.listens wire.new ≡ W.listens wire.old }
    ensures beside { W.beside wire.old wire.new }
    ensures later { W.faults wire.old ≤ W.faults wire.new }
{
    let Ok(request) = write_request(alloc, at, text) else {
        return Err(PostFault::Memory { said: false });
    };
    let Ok(()) = say_all(wire, request.bytes()) else {
        return Err(PostFault::Wire { said: false });
    };
    hear(alloc, wire, responses)
}
