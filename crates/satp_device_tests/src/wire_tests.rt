ghost use Rattle.std.specs.Prelude.{◌≡◌, false, true};

use satp_base::{Address, Wire};
use satp_memory::MemWire;
use std::alloc::Global;

/// The bytes of a read with zeros after them, and how many they are.
type Heard = ([u8; 4], usize);

/// What was heard, how many bytes were said, and whether a second connection was opened.
#[derive(Clone, Copy, PartialEq, Eq)]
struct Exchange {
    heard: Option<Heard>,
    said: Option<usize>,
    again: bool,
}

fn hear(wire: &mut MemWire) -> Option<Heard>
    requires { wire.old.is_open ≡ true }
    ensures open { wire.new.is_open ≡ true }
{
    let mut into = [0; 4];
    match wire.read(&mut into) {
        Ok(count) => Some((into, count)),
        Err(_) => None,
    }
}

/// Hears, says and ends the connection, and asks for a second one.
fn talk(wire: &mut MemWire, at: &Address) -> Exchange
    requires { wire.old.is_open ≡ true }
{
    let heard = hear(wire);
    let said = wire.write(b"hello").ok();
    wire.shut();
    let again = wire.connect(at).is_ok();
    Exchange { heard, said, again }
}

fn connect(wire: &mut MemWire, at: &Address) -> Option<Exchange>
    requires { wire.old.is_open ≡ false }
{
    match wire.connect(at) {
        Ok(()) => Some(talk(wire, at)),
        Err(_) => None,
    }
}

fn accept(wire: &mut MemWire, at: &Address) -> Option<Exchange>
    requires listens { wire.old.listens ≡ true }
    requires free { wire.old.is_open ≡ false }
{
    match wire.accept() {
        Ok(()) => Some(talk(wire, at)),
        Err(_) => None,
    }
}

fn listen(wire: &mut MemWire, at: &Address) -> Option<Exchange>
    requires { wire.old.is_open ≡ false }
{
    match wire.listen(at) {
        Ok(()) => accept(wire, at),
        Err(_) => None,
    }
}

/// What is told of one connection, whether `hello` was said on it, and the counts of calls and of wants.
type Conversation = (Option<Exchange>, bool, [u64; 2]);

/// A conversation on a new wire whose peer says three bytes, and whose call of this number fails. It listens, or it connects.
fn converse(alloc: Global, listens: bool, call: u64) -> Option<Conversation> {
    let at = Address::read(b"127.0.0.1:7002").ok()?;
    let mut wire = MemWire::new(alloc, b"abc").ok()?;
    wire.fail(call).ok()?;
    let talk = if listens {
        listen(&mut wire, &at)
    } else {
        connect(&mut wire, &at)
    };
    let said = wire.said() == b"hello".as_slice();
    Some((talk, said, [wire.count(), wire.wants()]))
}

/// What is heard and said where it is, and never a second connection.
const fn make_exchange(heard: bool, said: bool) -> Option<Exchange> {
    Some(Exchange {
        heard: if heard { Some((*b"abc\0", 3)) } else { None },
        said: if said { Some(5) } else { None },
        again: false,
    })
}

/// The calls are to connect, to hear, to say and to connect again, or to listen before these. The last one fails anyway, and to shut has no number.
#[test]
fn a_wire_opens_one_connection_and_fails_where_it_is_told_to(rt: HostRuntime) {
    for (listens, call, talk, said, count) in [
        (false, 1, None, false, 1),
        (false, 2, make_exchange(false, true), true, 4),
        (false, 3, make_exchange(true, false), false, 4),
        (false, 4, make_exchange(true, true), true, 4),
        (false, 5, make_exchange(true, true), true, 4),
        (true, 1, None, false, 1),
        (true, 2, None, false, 2),
        (true, 6, make_exchange(true, true), true, 5),
    ] {
        assert!(rt;
            converse(rt.alloc(), listens, call) == Some((talk, said, [count, 0])),
            "at {call}"
        );
    }
}
