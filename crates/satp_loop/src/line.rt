// The bytes of a wire's one connection.
ghost use Rattle.std.specs.Prelude.{◌≡◌, ◌≤◌, ◌+◌, ◌-◌, ◌^◌, ◌⊎◌, true, false, ℕ, List, length, take, drop, OnOk, OnErr};
ghost use Rattle.satp_base.specs.Calls.{Reads};
ghost use Rattle.satp_base.specs.Streams.{HasCause, Rose};
ghost use Rattle.satp_loop.specs.Lines.{audible, dialled, hearing, listening, opening, quiet, refused, saying, shutting, traffic_of, wanting};

use satp_base::{Address, Dial, WireFault};
use std::alloc::Global;
use std::marker::Model;

/// The bytes of a wire's one connection but for those that the peer said, what was dialled, and what failed.
#[derive(Drop)]
pub struct Line {
    place: usize,
    said: Vec<u8>,
    ended: bool,
    used: bool,
    is_open: bool,
    listens: bool,
    dials: Vec<Dial>,
    faults: u64,
    wants: u64,
}

impl Model for Line {
    ghost use Rattle.std.specs.Prelude.{◌≡◌, ◌<◌, [], true, false, length};
    ghost use Rattle.satp_loop.specs.Lines.{Lining};

    ghost Value = { Lining };

    ghost view = { λ l. record { place = l.place; said = l.said.items; ended = l.ended; used = l.used; is_open = l.is_open; listens = l.listens; dials = l.dials.items; faults = l.faults; wants = l.wants } };

    ghost invariant = { λ l. (l.used ≡ false → (l.place ≡ 0) × (l.said.items ≡ []) × (l.ended ≡ false)) × (l.is_open ≡ true → l.used ≡ true) × (l.used ≡ true → 0 < length l.dials.items) };
}

impl Line {
    /// Before any call.
    pub fn new(alloc: Global) -> Line
        ensures { result ≡ quiet }
    {
        Line {
            place: 0,
            said: Vec::new(alloc),
            ended: false,
            used: false,
            is_open: false,
            listens: false,
            dials: Vec::new(alloc),
            faults: 0,
            wants: 0,
        }
    }

    /// How many calls found no memory.
    pub fn wants(&self) -> u64
        ensures { result ≡ self.now.wants }
    {
        self.wants
    }

    /// Counts a call that found no memory.
    pub fn want(&mut self)
        ensures counted { self.new ≡ wanting self.old }
        ensures rose { Rose self.old.faults self.new.faults }
    {
        self.faults = self.faults.saturating_add(1);
        self.wants = self.wants.saturating_add(1);
    }

    /// Whether the one connection was opened.
    pub fn was_opened(&self) -> bool
        ensures { result ≡ self.now.used }
    {
        self.used
    }

    /// Whether the end of what the peer says was heard.
    pub fn has_ended(&self) -> bool
        ensures { result ≡ self.now.ended }
    {
        self.ended
    }

    /// Notes a call that is told by name. It fails where no memory is found to note it.
    fn dial(&mut self, dial: Dial) -> Result<(), WireFault>
        ensures ok { OnOk result (self.new ≡ dialled dial self.old) }
        ensures err { OnErr result (self.new ≡ wanting self.old) }
        ensures cause { HasCause self.old.faults self.new.faults result }
    {
        if self.dials.push(dial).is_err() {
            self.want();
            return Err(WireFault);
        }
        Ok(())
    }

    /// Begins to listen.
    pub fn listen(&mut self, at: Address) -> Result<(), WireFault>
        ensures ok { OnOk result (self.new ≡ listening at self.old) }
        ensures err { OnErr result (self.new ≡ wanting self.old) }
        ensures cause { HasCause self.old.faults self.new.faults result }
    {
        self.dial(Dial::Listen { at })?;
        self.listens = true;
        Ok(())
    }

    /// Opens the one connection.
    pub fn open(&mut self, dial: Dial) -> Result<(), WireFault>
        requires { self.old.used ≡ false }
        ensures ok { OnOk result (self.new ≡ opening dial self.old) }
        ensures err { OnErr result (self.new ≡ wanting self.old) }
        ensures cause { HasCause self.old.faults self.new.faults result }
    {
        self.dial(dial)?;
        self.used = true;
        self.is_open = true;
        Ok(())
    }

    /// Refuses a connection. Where no memory is found to note it, that alone is counted.
    pub fn refuse(&mut self, dial: Dial) -> WireFault
        ensures ends { (self.new ≡ refused dial self.old) ⊎ (self.new ≡ wanting self.old) }
        ensures second { self.old.used ≡ true → self.new ≡ refused dial self.old → 2 ≤ length self.new.dials }
        ensures rose { Rose self.old.faults self.new.faults }
    {
        match self.dials.push(dial) {
            Ok(()) => self.faults = self.faults.saturating_add(1),
            Err(_) => self.want(),
        }
        WireFault
    }

    /// Hears as many of the peer's bytes as are left and fit. After the end was heard there are none.
    pub fn hear(&mut self, answers: &[u8], into: &mut [u8]) -> usize
        requires { self.old.is_open ≡ true }
        ensures count { result ≡ audible self.old answers.now (length into.new) }
        ensures within { result ≤ length into.new }
        ensures bytes { take result into.new ≡ take result (drop self.old.place answers.now) }
        ensures heard { self.new ≡ hearing result (length into.new) self.old }
        ensures place { self.old.place ≤ length answers.now → self.new.place ≤ length answers.now }
    {
        if self.ended {
            return 0;
        }
        let count = copy_from(answers, self.place, into);
        self.place += count;
        self.ended = count == 0 && into.len() > 0;
        count
    }

    /// Says a piece. Where no memory is found that is counted, and nothing is said.
    pub fn say(&mut self, piece: &[u8]) -> Result<(), WireFault>
        requires { self.old.is_open ≡ true }
        ensures ok { OnOk result (self.new ≡ saying piece.now self.old) }
        ensures err { OnErr result (self.new ≡ wanting self.old) }
        ensures cause { HasCause self.old.faults self.new.faults result }
    {
        match self.said.extend_from_slice(piece) {
            Ok(()) => Ok(()),
            Err(_) => {
                self.want();
                Err(WireFault)
            }
        }
    }

    /// Takes back the last bytes that were said, for which no memory was found, which is counted.
    pub fn take_back(&mut self, count: usize)
        requires open { self.old.is_open ≡ true }
        requires said { count ≤ length self.old.said }
        ensures back { self.new ≡ wanting (record self.old { said = take (length self.old.said - count) self.old.said }) }
        ensures rose { Rose self.old.faults self.new.faults }
    {
        self.said.truncate(self.said.len() - count);
        self.want();
    }

    /// Ends the connection.
    pub fn shut(&mut self)
        ensures shut { self.new ≡ shutting self.old }
        ensures told { (answers : List ℕ) → traffic_of self.new answers ≡ traffic_of self.old answers }
    {
        self.is_open = false;
    }
}

/// Copies the bytes from a place on to the front of a buffer, as many as there are and fit.
fn copy_from(bytes: &[u8], at: usize, into: &mut [u8]) -> usize
    ensures fits { at + result ≤ 2 ^ 64 - 1 }
    ensures room { length into.new ≡ length into.old }
    ensures reads { Reads bytes.now at into.new result }
    ensures place { at ≤ length bytes.now → at + result ≤ length bytes.now }
{
    if at >= bytes.len() {
        return 0;
    }
    let rest = &bytes[at..];
    let count = rest.len().min(into.len());
    into[..count].copy_from_slice(&rest[..count]);
    count
}
