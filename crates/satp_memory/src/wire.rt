ghost use Rattle.std.specs.Prelude.{◌≡◌, ◌≢◌, ◌≤◌, ◌<◌, ◌∷◌, ◌++◌, ◌&&◌, ◌||◌, ◌==◌, ◌⊎◌, Some, true, false, not, [], length, drop, take, nat_lt, option_map, IfOk, OnOk, OnErr};
ghost use Rattle.satp_base.specs.Streams.{HasCause};
ghost use Rattle.satp_base.specs.Wires.{MayMiss, called, hears, says};
ghost use Rattle.satp_base.specs.declared.wire.Dial.TheVariants.{Listen, Accept, Connect};
ghost use Rattle.satp_memory.specs.Calling.{fresh, is_due, naming, stepped, succeeded, wanting};
ghost use Rattle.satp_memory.specs.Talking.{HearsInto, ListensOn, Misses, Opens, SaysAll, quiet, traffic_of};

use crate::calls::Calls;
use crate::copy::copy_from;
use satp_base::{Address, Dial, Memory, Wire, WireFault};
use std::alloc::Global;
use std::marker::Model;

/// A wire in memory, whose peer says the same bytes whatever it hears.
///
/// It opens one connection, in either direction, and refuses a second one. Each other call fails where [`MemWire::fail`] named it, and beside that only where it found no memory; a read takes none. [`Wire::shut`] can't fail, and has no number.
#[derive(Drop)]
pub struct MemWire {
    heard: Vec<u8>,
    place: usize,
    said: Vec<u8>,
    ended: bool,
    used: bool,
    is_open: bool,
    listens: bool,
    dials: Vec<Dial>,
    calls: Calls,
}

impl Model for MemWire {
    ghost use Rattle.std.specs.Prelude.{◌≡◌, ◌≤◌, [], true, false, drop, length, take};
    ghost use Rattle.satp_memory.specs.Talking.{Talking};

    ghost Value = { Talking };

    ghost view = { λ w. record { left = drop w.place w.heard.items; heard = take w.place w.heard.items; said = w.said.items; ended = w.ended; used = w.used; is_open = w.is_open; listens = w.listens; dials = w.dials.items; calls = w.calls } };

    ghost invariant = { λ w. (w.place ≤ length w.heard.items) × (w.used ≡ false → (w.place ≡ 0) × (w.said.items ≡ []) × (w.ended ≡ false)) × (w.is_open ≡ true → w.used ≡ true) };
}

impl MemWire {
    /// A wire that was never called, whose peer will say these bytes. `Memory` where none was found for a copy of them.
    pub fn new(alloc: Global, heard: &[u8]) -> Result<MemWire, Memory>
        ensures { IfOk result (λ wire. wire ≡ quiet heard.now) }
    {
        Ok(MemWire {
            heard: Vec::from_slice(alloc, heard)?,
            place: 0,
            said: Vec::new(alloc),
            ended: false,
            used: false,
            is_open: false,
            listens: false,
            dials: Vec::new(alloc),
            calls: Calls::new(alloc),
        })
    }

    /// Makes the call of this number, from 1, fail. `Memory` where none was found to note it.
    pub fn fail(&mut self, call: u64) -> Result<(), Memory>
        ensures ok { OnOk result (self.new ≡ record self.old { calls = naming call self.old.calls }) }
        ensures err { OnErr result (self.new ≡ self.old) }
    {
        self.calls.fail(call)
    }

    /// How many calls there were.
    pub fn count(&self) -> u64
        ensures { result ≡ self.now.calls.count }
    {
        self.calls.count()
    }

    /// How many calls failed because no memory was found.
    pub fn wants(&self) -> u64
        ensures { result ≡ self.now.calls.wants }
    {
        self.calls.wants()
    }

    /// The bytes that were said.
    pub fn said(&self) -> &[u8]
        ensures { result.now ≡ self.now.said }
    {
        self.said.as_slice()
    }

    /// Counts a call that is told by name, and notes it. It fails where it was named or `barred`, or where no memory was found to note it.
    fn dial(&mut self, dial: Dial, barred: bool) -> Result<(), WireFault>
        ensures ok { OnOk result ((barred ≡ false) × (is_due self.old.calls ≡ false) × (self.new ≡ record self.old { dials = self.old.dials ++ dial ∷ []; calls = succeeded self.old.calls })) }
        ensures err { OnErr result (Misses barred dial self.old self.new) }
        ensures cause { HasCause self.old.calls.faults self.new.calls.faults result }
    {
        let refused = self.calls.begin(barred);
        match self.dials.push(dial) {
            Ok(()) => {
                if refused {
                    return Err(WireFault);
                }
                Ok(())
            }
            Err(_) => {
                self.calls.want();
                Err(WireFault)
            }
        }
    }

    /// Opens the one connection.
    fn begin(&mut self, dial: Dial) -> Result<(), WireFault>
        ensures ends { Opens dial self.old self.new result }
        ensures cause { HasCause self.old.calls.faults self.new.calls.faults result }
    {
        self.dial(dial, self.used)?;
        self.used = true;
        self.is_open = true;
        Ok(())
    }
}

impl Wire for MemWire {
    ghost use Rattle.satp_memory.specs.TalkingLaws.{one_is_open};

    ghost told = { λ w. Some (traffic_of w) };

    ghost faults = { λ w. w.calls.faults };

    ghost listens = { λ w. w.listens };

    ghost is_open = { λ w. w.is_open };

    fn listen(&mut self, at: &Address) -> Result<(), WireFault>
        ensures ends { ListensOn (Listen at.now) self.old self.new result }
        ensures cause { HasCause self.old.calls.faults self.new.calls.faults result }
    {
        self.dial(Dial::Listen { at: *at }, false)?;
        self.listens = true;
        Ok(())
    }

    fn accept(&mut self) -> Result<(), WireFault>
        requires listens { self.old.listens ≡ true }
        requires free { self.old.is_open ≡ false }
        ensures ends { Opens Accept self.old self.new result }
        ensures cause { HasCause self.old.calls.faults self.new.calls.faults result }
    {
        self.begin(Dial::Accept)
    }

    fn connect(&mut self, at: &Address) -> Result<(), WireFault>
        requires free { self.old.is_open ≡ false }
        ensures ends { Opens (Connect at.now) self.old self.new result }
        ensures cause { HasCause self.old.calls.faults self.new.calls.faults result }
    {
        self.begin(Dial::Connect { at: *at })
    }

    fn read(&mut self, into: &mut [u8]) -> Result<usize, WireFault>
        requires { self.old.is_open ≡ true }
        ensures within { IfOk result (λ n. n ≤ length into.new) }
        ensures ends { HearsInto into.new self.old self.new result }
        ensures cause { HasCause self.old.calls.faults self.new.calls.faults result }
    {
        if self.calls.begin(false) {
            return Err(WireFault);
        }
        let count = copy_from(&self.heard, self.place as u64, into);
        self.place += count;
        self.ended = has_ended(self.ended, count, into.len());
        Ok(count)
    }

    fn write(&mut self, piece: &[u8]) -> Result<usize, WireFault>
        requires { self.old.is_open ≡ true }
        ensures ends { SaysAll piece.now self.old self.new result }
        ensures cause { HasCause self.old.calls.faults self.new.calls.faults result }
    {
        if self.calls.begin(false) {
            return Err(WireFault);
        }
        match self.said.extend_from_slice(piece) {
            Ok(()) => Ok(piece.len()),
            Err(_) => {
                self.calls.want();
                Err(WireFault)
            }
        }
    }

    fn shut(&mut self)
        ensures shut { self.new ≡ record self.old { is_open = false } }
        ensures told { traffic_of self.new ≡ traffic_of self.old }
    {
        self.is_open = false;
    }

    ghost one_open = { one_is_open };

    ghost beside_same = { λ w. tt };

    ghost beside_then = { λ a b c x y. tt };
}

/// The end was heard before, or a read into so much room heard it.
fn has_ended(before: bool, count: usize, room: usize) -> bool
    ensures { result ≡ (before || ((count == 0) && nat_lt 0 room)) }
{
    before || count == 0 && room > 0
}
