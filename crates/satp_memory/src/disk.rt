ghost use Rattle.std.specs.Prelude.{◌≡◌, ◌<◌, ◌∷◌, ◌++◌, true, [], vec_len, vec_capacity};
ghost use Rattle.satp_memory.specs.Disk.{is_plain, Tracks};
ghost use Rattle.satp_memory.specs.Stopping.{is_reached, pick_of, reached_alone};

use crate::areas::{Areas, front, overlay, repeated};
use crate::calls::Calls;
use crate::copy::copy_from;
use crate::note::{Ask, Entering};
use crate::operate::Halt;
use crate::pick::pick_areas;
use crate::stop::Stop;
use satp_base::{
    ActFault, Area, Device, Disk, DiskFault, Event, Genesis, LedgerCall, LedgerKind, LedgerOp,
    Memory, SessionId, Terms, Text,
};
use std::alloc::Global;

/// A disk in memory, which keeps all its events, so that it tells what a stop at each of them leaves.
///
/// A call fails where [`MemDisk::fail`] named it or a stop was reached, and beside that only where it found no memory.
/// A write or cut that was named takes effect and adds its event; after a stop no call adds one.
/// It notes the calls on a ledger and their events too, for the site that it is part of.
#[derive(Drop)]
pub struct MemDisk {
    pub(crate) alloc: Global,
    start: Areas,
    current: Areas,
    base: Areas,
    marks: Areas,
    past: Vec<Event>,
    events: Vec<Event>,
    dirs: Vec<Entering>,
    asks: Vec<Ask>,
    pub(crate) calls: Calls,
    stop: Option<Stop>,
    ghost tracks: { Tracks start events.items current base marks },
    ghost plain: { is_plain events.items ≡ true },
}

impl MemDisk {
    ghost use Rattle.std.specs.Prelude.{◌≡◌, ◌≤◌, ◌<◌, ◌+◌, ◌-◌, ◌^◌, ◌⊎◌, ◌||◌, not, [], ◌∷◌, ◌++◌, length, is_ok, true, false, if◌then◌else◌, vec_len, vec_capacity, Some, IfOk, OnOk, OnErr};
    ghost use Rattle.satp_base.specs.declared.area.Area.{Area};
    ghost use Rattle.satp_base.specs.declared.area.Event.TheVariants.{Acted, Founded, Wrote, Cut, Synced};
    ghost use Rattle.satp_memory.specs.Areas.{bytes_in};
    ghost use Rattle.satp_memory.specs.Calling.{cleared, fresh, is_refused, naming};
    ghost use Rattle.satp_memory.specs.Following.{Follows, founds, has_founded};
    ghost use Rattle.satp_memory.specs.Halting.{fault_of, halted};
    ghost use Rattle.satp_memory.specs.Sites.{LedgerEnds};
    ghost use Rattle.satp_base.specs.declared.ledger.LedgerCall.TheVariants.{Found};
    ghost use Rattle.satp_memory.specs.Stopping.{stop_after};
    ghost use Rattle.satp_memory.specs.Steps.{AskFails, Does, IsFresh, IsOfLedger, Restarts, SameDisk, adding, asking, counted, entries_of, is_stopped, noting, told_of};
    ghost use Rattle.satp_base.specs.LedgerAt.{entries_after};
    ghost use Rattle.satp_base.specs.LedgerRule.{moved_entries};
    ghost use Rattle.satp_base.specs.Calls.{MayMiss, ask_failed};
    ghost use Rattle.satp_base.specs.Streams.{HasCause, Rose};

    /// An empty disk that was never called.
    pub fn new(alloc: Global) -> Result<MemDisk, Memory>
        ensures { IfOk result (λ disk. IsFresh disk × (disk.calls ≡ fresh)) }
    {
        Ok(MemDisk {
            alloc,
            start: Areas::new(alloc),
            current: Areas::new(alloc),
            base: Areas::new(alloc),
            marks: Areas::new(alloc),
            past: Vec::new(alloc),
            events: Vec::new(alloc),
            dirs: Vec::new(alloc),
            asks: Vec::new(alloc),
            calls: Calls::new(alloc),
            stop: None,
        })
    }

    /// Makes the call of this number, from 1, fail. `Memory` where none was found to note it.
    pub fn fail(&mut self, call: u64) -> Result<(), Memory>
        ensures same { SameDisk self.old self.new }
        ensures ok { OnOk result (self.new.calls ≡ naming call self.old.calls) }
        ensures err { OnErr result (self.new.calls ≡ self.old.calls) }
    {
        self.calls.fail(call)
    }

    /// How many calls there were.
    pub fn count(&self) -> u64
        ensures { result ≡ self.now.calls.count }
    {
        self.calls.count()
    }

    /// How many calls failed because no memory was found.
    pub fn wants(&self) -> u64
        ensures { result ≡ self.now.calls.wants }
    {
        self.calls.wants()
    }

    /// After so many further events every call fails and adds none, until a restart. A later stop takes the place of an earlier one.
    pub fn stop_at(&mut self, event: u64, pick: u32)
        ensures told { told_of self.new ≡ told_of self.old }
        ensures past { self.new.past.items ≡ self.old.past.items }
        ensures calls { self.new.calls ≡ self.old.calls }
        ensures stop { self.new.stop ≡ Some (stop_after (length self.old.events.items) event pick) }
    {
        let at = (self.events.len() as u64).saturating_add(event);
        self.stop = Some(Stop { at, pick });
    }

    /// Drops a stop that wasn't reached, and each call that is to fail and hasn't come.
    pub fn clear(&mut self)
        ensures told { told_of self.new ≡ told_of self.old }
        ensures past { self.new.past.items ≡ self.old.past.items }
        ensures calls { self.new.calls ≡ cleared self.old.calls }
        ensures stop { self.new.stop ≡ reached_alone self.old.stop (length self.old.events.items) }
    {
        if !self.is_stopped() {
            self.stop = None;
        }
        self.calls.clear();
    }

    /// A restart after a stop: each area has the image of the stop's pick, and the trail begins anew with it.
    ///
    /// Pick 0 is the bytes of the last sync, pick 1 (and no stop) those of now. Any other pick is those of now, with each byte that was written since the last sync equal to the pick modulo 256.
    /// `Memory` leaves all as it was.
    pub fn restart(&mut self) -> Result<(), Memory>
        ensures ok { OnOk result (Restarts self.old self.new) }
        ensures err { OnErr result (SameDisk self.old self.new) }
        ensures calls { self.new.calls ≡ self.old.calls }
    {
        let pick = pick_of(self.stop);
        let image = pick_areas(self.alloc, &self.base, &self.current, &self.marks, pick)?;
        let start = image.copy(self.alloc)?;
        let base = image.copy(self.alloc)?;
        let marks = image.zeros(self.alloc)?;
        self.past.append(&mut self.events)?;
        self.start = start;
        self.base = base;
        self.marks = marks;
        self.current = image;
        self.stop = None;
        Ok(())
    }

    /// Whether so many events are there that every call fails, until a restart.
    pub fn is_stopped(&self) -> bool
        ensures { result ≡ is_stopped self.now }
    {
        is_reached(self.stop, self.events.len())
    }

    /// Counts a call on the ledger, and finds room for its note and for an event. It answers the note of a call that succeeds.
    ///
    /// It fails where the call was named or the stop was reached, where it doesn't fit the ledger, and else only where no memory was found. It then notes the failed call, unless no memory was found.
    pub(crate) fn ask(&mut self, call: LedgerCall, fits: bool) -> Result<Ask, Memory>
        ensures ok { IfOk result (λ ask. (ask ≡ asking call self.old true) × (told_of self.new ≡ counted (told_of self.old)) × (is_stopped self.new ≡ false)) }
        ensures room { OnOk result ((vec_len self.new.events < vec_capacity self.new.events) × (vec_len self.new.asks < vec_capacity self.new.asks)) }
        ensures err { OnErr result (MayMiss (ask_failed call []) [] (Some (told_of self.old)) (Some (told_of self.new))) }
        ensures noted { OnErr result ((self.new.asks.items ≡ self.old.asks.items ++ asking call self.old false ∷ []) ⊎ (Rose self.old.calls.wants self.new.calls.wants × (self.new.asks.items ≡ self.old.asks.items))) }
        ensures failed { OnErr result (AskFails call fits self.old self.new) }
        ensures asks { OnOk result (self.new.asks.items ≡ self.old.asks.items) }
        ensures cause { HasCause self.old.calls.faults self.new.calls.faults result }
        ensures ended { LedgerEnds (is_refused (is_stopped self.old) self.old.calls) fits self.old.calls self.new.calls result }
        ensures past { self.new.past.items ≡ self.old.past.items }
        ensures events { self.new.events.items ≡ self.old.events.items }
        ensures stop { self.new.stop ≡ self.old.stop }
        ensures beside { Follows self.old self.new }
    {
        let before = self.calls.count();
        let barred = self.is_barred(fits);
        let fails = self.calls.begin(barred);
        if self.find_room().is_err() {
            self.calls.want();
            return Err(Memory);
        }
        if fails {
            self.note(Ask {
                call,
                before,
                succeeded: false,
            });
            return Err(Memory);
        }
        Ok(Ask {
            call,
            before,
            succeeded: true,
        })
    }

    /// The same of a founding, whose genesis it copies.
    pub(crate) fn ask_founding(
        &mut self,
        kind: LedgerKind,
        genesis: &Genesis,
        fits: bool,
    ) -> Result<Ask, Memory>
        ensures ok { IfOk result (λ ask. (ask ≡ asking (Found kind genesis.now) self.old true) × (told_of self.new ≡ counted (told_of self.old)) × (is_stopped self.new ≡ false)) }
        ensures room { OnOk result ((vec_len self.new.events < vec_capacity self.new.events) × (vec_len self.new.asks < vec_capacity self.new.asks)) }
        ensures err { OnErr result (MayMiss (ask_failed (Found kind genesis.now) []) [] (Some (told_of self.old)) (Some (told_of self.new))) }
        ensures noted { OnErr result ((self.new.asks.items ≡ self.old.asks.items ++ asking (Found kind genesis.now) self.old false ∷ []) ⊎ (Rose self.old.calls.wants self.new.calls.wants × (self.new.asks.items ≡ self.old.asks.items))) }
        ensures failed { OnErr result (AskFails (Found kind genesis.now) fits self.old self.new) }
        ensures asks { OnOk result (self.new.asks.items ≡ self.old.asks.items) }
        ensures cause { HasCause self.old.calls.faults self.new.calls.faults result }
        ensures ended { LedgerEnds (is_refused (is_stopped self.old) self.old.calls) fits self.old.calls self.new.calls result }
        ensures past { self.new.past.items ≡ self.old.past.items }
        ensures events { self.new.events.items ≡ self.old.events.items }
        ensures stop { self.new.stop ≡ self.old.stop }
        ensures beside { Follows self.old self.new }
    {
        match genesis.copy(self.alloc) {
            Ok(genesis) => self.ask(LedgerCall::Found { kind, genesis }, fits),
            Err(_) => {
                let barred = self.is_barred(fits);
                self.calls.begin(barred);
                self.calls.want();
                Err(Memory)
            }
        }
    }

    /// The stop was reached, or a call doesn't fit the ledger.
    fn is_barred(&self, fits: bool) -> bool
        ensures { result ≡ (is_stopped self.now || not fits) }
    {
        self.is_stopped() || !fits
    }

    /// Finds room for one event more, and for the note of one call.
    fn find_room(&mut self) -> Result<(), Memory>
        ensures room { OnOk result ((vec_len self.new.events < vec_capacity self.new.events) × (vec_len self.new.asks < vec_capacity self.new.asks)) }
        ensures start { self.new.start ≡ self.old.start }
        ensures past { self.new.past.items ≡ self.old.past.items }
        ensures events { self.new.events.items ≡ self.old.events.items }
        ensures dirs { self.new.dirs.items ≡ self.old.dirs.items }
        ensures asks { self.new.asks.items ≡ self.old.asks.items }
        ensures stop { self.new.stop ≡ self.old.stop }
        ensures calls { self.new.calls ≡ self.old.calls }
    {
        self.events.reserve(1)?;
        self.asks.reserve(1)?;
        Ok(())
    }

    /// Notes a call on the ledger, for which there is room.
    fn note(&mut self, ask: Ask)
        requires { vec_len self.old.asks < vec_capacity self.old.asks }
        ensures start { self.new.start ≡ self.old.start }
        ensures past { self.new.past.items ≡ self.old.past.items }
        ensures events { self.new.events.items ≡ self.old.events.items }
        ensures room { vec_len self.new.events ≡ vec_len self.old.events × (vec_capacity self.new.events ≡ vec_capacity self.old.events) }
        ensures dirs { self.new.dirs.items ≡ self.old.dirs.items }
        ensures asks { self.new.asks.items ≡ self.old.asks.items ++ ask ∷ [] }
        ensures stop { self.new.stop ≡ self.old.stop }
        ensures calls { self.new.calls ≡ self.old.calls }
    {
        push_within(&mut self.asks, ask);
    }

    /// Adds an event of the ledger, for which there is room.
    fn add(&mut self, event: Event)
        requires room { vec_len self.old.events < vec_capacity self.old.events }
        requires ledger { IsOfLedger event }
        ensures does { Does event self.old self.new }
        ensures entries { entries_of self.new ≡ entries_after (entries_of self.old) event }
    {
        push_within(&mut self.events, event);
    }

    /// Notes an operation that was answered, and adds the event of it where it changed an entry.
    pub(crate) fn answer(
        &mut self,
        ask: Ask,
        changed: bool,
        op: LedgerOp,
        session: SessionId,
        terms: Terms,
    )
        requires room { (vec_len self.old.events < vec_capacity self.old.events) × (vec_len self.old.asks < vec_capacity self.old.asks) }
        requires running { is_stopped self.old ≡ false }
        requires act { founds ask.call ≡ false }
        ensures told { told_of self.new ≡ noting ask (adding (if changed then Acted op session terms ∷ [] else []) (told_of self.old)) }
        ensures asks { self.new.asks.items ≡ self.old.asks.items ++ ask ∷ [] }
        ensures entries { entries_of self.new ≡ (if changed then moved_entries (entries_of self.old) op session terms else entries_of self.old) }
        ensures stop { self.new.stop ≡ self.old.stop }
        ensures calls { self.new.calls ≡ self.old.calls }
        ensures beside { Follows self.old self.new }
    {
        self.note(ask);
        if changed {
            self.add(Event::Acted { op, session, terms });
        }
    }

    /// Notes a founding that succeeded, and adds the event of it.
    pub(crate) fn found(&mut self, ask: Ask)
        requires room { (vec_len self.old.events < vec_capacity self.old.events) × (vec_len self.old.asks < vec_capacity self.old.asks) }
        requires running { is_stopped self.old ≡ false }
        requires founding { has_founded ask ≡ true }
        ensures told { told_of self.new ≡ noting ask (adding (Founded ∷ []) (told_of self.old)) }
        ensures asks { self.new.asks.items ≡ self.old.asks.items ++ ask ∷ [] }
        ensures stop { self.new.stop ≡ self.old.stop }
        ensures calls { self.new.calls ≡ self.old.calls }
        ensures beside { Follows self.old self.new }
        ensures founded { self.new.events.items ≡ self.old.events.items ++ Founded ∷ [] }
    {
        self.note(ask);
        self.add(Event::Founded);
    }

    /// Notes a call on a ledger that opened it, or looked.
    pub(crate) fn done(&mut self, ask: Ask)
        requires room { vec_len self.old.asks < vec_capacity self.old.asks }
        requires other { founds ask.call ≡ false }
        ensures told { told_of self.new ≡ noting ask (told_of self.old) }
        ensures asks { self.new.asks.items ≡ self.old.asks.items ++ ask ∷ [] }
        ensures past { self.new.past.items ≡ self.old.past.items }
        ensures events { self.new.events.items ≡ self.old.events.items }
        ensures stop { self.new.stop ≡ self.old.stop }
        ensures calls { self.new.calls ≡ self.old.calls }
        ensures beside { Follows self.old self.new }
    {
        self.note(ask);
    }

    /// Notes a call on the ledger that failed after it was counted, and counts why.
    pub(crate) fn halt(&mut self, ask: Ask, halt: Halt) -> ActFault
        requires room { vec_len self.old.asks < vec_capacity self.old.asks }
        ensures fault { result ≡ fault_of halt }
        ensures told { told_of self.new ≡ noting (record ask { succeeded = false }) (record (told_of self.old) { last_failed = Some self.old.calls.count }) }
        ensures asks { self.new.asks.items ≡ self.old.asks.items ++ record ask { succeeded = false } ∷ [] }
        ensures past { self.new.past.items ≡ self.old.past.items }
        ensures events { self.new.events.items ≡ self.old.events.items }
        ensures stop { self.new.stop ≡ self.old.stop }
        ensures calls { self.new.calls ≡ halted halt self.old.calls }
        ensures rose { Rose self.old.calls.faults self.new.calls.faults }
        ensures beside { Follows self.old self.new }
    {
        self.note(Ask {
            call: ask.call,
            before: ask.before,
            succeeded: false,
        });
        self.calls.halt(halt)
    }

    /// What the area holds counts as synced.
    fn stage_sync(&mut self, area: Area) -> Result<(), Memory>
        ensures ok { OnOk result (Does (Synced area) self.old self.new) }
        ensures err { OnErr result (SameDisk self.old self.new) }
        ensures calls { self.new.calls ≡ self.old.calls }
    {
        let base = Vec::from_slice(self.alloc, self.current.at(area))?;
        let marks = repeated(self.alloc, 0, base.len())?;
        self.events.push(Event::Synced { area })?;
        self.base.put(area, base);
        self.marks.put(area, marks);
        Ok(())
    }

    fn stage_enter(&mut self, dir: &[u8], before: u64, succeeded: bool) -> Result<(), Memory>
        ensures start { self.new.start ≡ self.old.start }
        ensures past { self.new.past.items ≡ self.old.past.items }
        ensures events { self.new.events.items ≡ self.old.events.items }
        ensures dirs { self.new.dirs.items ≡ (if is_ok result then self.old.dirs.items ++ record { dir = dir.now; before = before; succeeded = succeeded } ∷ [] else self.old.dirs.items) }
        ensures asks { self.new.asks.items ≡ self.old.asks.items }
        ensures stop { self.new.stop ≡ self.old.stop }
        ensures calls { self.new.calls ≡ self.old.calls }
    {
        let dir = Text::copy(self.alloc, dir)?;
        self.dirs.push(Entering {
            dir,
            before,
            succeeded,
        })?;
        Ok(())
    }

    fn stage_cut(&mut self, area: Area, size: u64) -> Result<(), Memory>
        requires { size ≤ length (bytes_in self.old.current area) }
        ensures ok { OnOk result (Does (Cut area size) self.old self.new) }
        ensures err { OnErr result (SameDisk self.old self.new) }
        ensures calls { self.new.calls ≡ self.old.calls }
    {
        let next = front(self.alloc, self.current.at(area), size as usize)?;
        let marks = front(self.alloc, self.marks.at(area), size as usize)?;
        let event = Event::Cut { area, length: size };
        self.events.push(event)?;
        self.current.put(area, next);
        self.marks.put(area, marks);
        Ok(())
    }

    /// The write takes effect, or want of memory leaves all as it was.
    fn stage_write(&mut self, area: Area, at: u64, bytes: &[u8]) -> Result<(), Memory>
        requires { at ≤ length (bytes_in self.old.current area) }
        ensures ok { OnOk result (Does (Wrote area at bytes.now) self.old self.new) }
        ensures fits { OnOk result (at + length bytes.now ≤ 2 ^ 64 - 1) }
        ensures err { OnErr result (SameDisk self.old self.new) }
        ensures calls { self.new.calls ≡ self.old.calls }
    {
        if bytes.len() as u64 > u64::MAX - at {
            // No memory holds so many bytes.
            return Err(Memory);
        }
        let next = overlay(self.alloc, self.current.at(area), at as usize, bytes)?;
        let ones = repeated(self.alloc, 1, bytes.len())?;
        let marks = overlay(self.alloc, self.marks.at(area), at as usize, &ones)?;
        let event = Event::Wrote {
            area,
            at,
            bytes: Text::copy(self.alloc, bytes)?,
        };
        self.events.push(event)?;
        self.current.put(area, next);
        self.marks.put(area, marks);
        Ok(())
    }
}

/// Adds an item for which there is room.
fn push_within<T: Drop>(items: &mut Vec<T>, item: T)
    requires { vec_len items.old < vec_capacity items.old }
    ensures items { items.new.items ≡ items.old.items ++ item ∷ [] }
{
    let _ = items.push(item);
}

/// The stop comes before a further event.
fn is_reached(stop: Option<Stop>, events: usize) -> bool
    ensures { result ≡ is_reached stop events }
{
    match stop {
        Some(stop) => stop.at <= events as u64,
        None => false,
    }
}

/// The pick of a restart: the bytes of now where no stop stands.
fn pick_of(stop: Option<Stop>) -> u32
    ensures { result ≡ pick_of stop }
{
    match stop {
        Some(stop) => stop.pick,
        None => 1,
    }
}

impl Device for MemDisk {
    ghost use Rattle.std.specs.Prelude.{Some, None};
    ghost use Rattle.satp_memory.specs.Following.{FollowsDisk};
    ghost use Rattle.satp_memory.specs.FollowingLaws.{follows_disk_same, follows_disk_then};
    ghost use Rattle.satp_memory.specs.Plain.{told_keeps};
    ghost use Rattle.satp_memory.specs.Steps.{told_of};

    ghost told = { λ m. Some (told_of m) };

    ghost book = { λ m. None };

    ghost faults = { λ m. m.calls.faults };

    ghost beside = { FollowsDisk };

    ghost keeps_model = { λ m t is. told_keeps _ t m.plain is };

    ghost beside_same = { follows_disk_same };

    ghost beside_then = { λ a b c. follows_disk_then a b c };
}

impl Disk for MemDisk {
    ghost use Rattle.std.specs.Prelude.{◌≡◌, ◌≤◌, ◌<◌, ◌+◌, ◌-◌, ◌^◌, [], ◌∷◌, Some, length, option_map, IfOk, OnOk, OnErr};
    ghost use Rattle.std.specs.Option.{ForSome};
    ghost use Rattle.satp_base.specs.Streams.{HasCause};
    ghost use Rattle.satp_base.specs.Trail.{seen};
    ghost use Rattle.satp_base.specs.Calls.{Fails, MayMiss, Reads, call_failed, enter_failed, entered, made};
    ghost use Rattle.satp_base.specs.declared.area.Event.TheVariants.{Wrote, Cut, Synced};
    ghost use Rattle.satp_memory.specs.Following.{FollowsDisk};
    ghost use Rattle.satp_memory.specs.Steps.{Adds, Ends, EndsOrWants, EntersOrWants, told_of};

    fn enter(&mut self, dir: &[u8]) -> Result<(), DiskFault>
        ensures ok { OnOk result (told_of self.new ≡ entered dir.now (told_of self.old)) }
        ensures err { OnErr result (MayMiss (enter_failed dir.now) [] (Some (told_of self.old)) (Some (told_of self.new))) }
        ensures cause { HasCause self.old.calls.faults self.new.calls.faults result }
        ensures ended { EntersOrWants dir.now self.old self.new result }
        ensures past { self.new.past.items ≡ self.old.past.items }
        ensures events { self.new.events.items ≡ self.old.events.items }
        ensures stop { self.new.stop ≡ self.old.stop }
        ensures beside { FollowsDisk self.old self.new }
    {
        let before = self.calls.count();
        let stopped = self.is_stopped();
        let refused = self.calls.begin(stopped);
        match self.stage_enter(dir, before, !refused) {
            Ok(()) => {
                if refused {
                    return Err(DiskFault);
                }
                Ok(())
            }
            Err(_) => {
                self.calls.want();
                Err(DiskFault)
            }
        }
    }

    fn length(&mut self, area: Area) -> Result<u64, DiskFault>
        ensures length { IfOk result (λ n. n ≡ length (seen (told_of self.old).trail area)) }
        ensures ok { OnOk result (told_of self.new ≡ made 1 [] (told_of self.old)) }
        ensures err { OnErr result (told_of self.new ≡ call_failed [] (told_of self.old)) }
        ensures cause { HasCause self.old.calls.faults self.new.calls.faults result }
        ensures ended { Ends self.old self.new result }
        ensures past { self.new.past.items ≡ self.old.past.items }
        ensures events { self.new.events.items ≡ self.old.events.items }
        ensures stop { self.new.stop ≡ self.old.stop }
        ensures beside { FollowsDisk self.old self.new }
    {
        let stopped = self.is_stopped();
        if self.calls.begin(stopped) {
            return Err(DiskFault);
        }
        Ok(self.current.at(area).len() as u64)
    }

    fn read(&mut self, area: Area, at: u64, into: &mut [u8]) -> Result<usize, DiskFault>
        ensures bound { IfOk result (λ n. n ≤ length into.new) }
        ensures bytes { IfOk result (λ n. Reads (seen (told_of self.old).trail area) at into.new n) }
        ensures ok { OnOk result (told_of self.new ≡ made 1 [] (told_of self.old)) }
        ensures err { OnErr result (told_of self.new ≡ call_failed [] (told_of self.old)) }
        ensures cause { HasCause self.old.calls.faults self.new.calls.faults result }
        ensures ended { Ends self.old self.new result }
        ensures past { self.new.past.items ≡ self.old.past.items }
        ensures events { self.new.events.items ≡ self.old.events.items }
        ensures stop { self.new.stop ≡ self.old.stop }
        ensures beside { FollowsDisk self.old self.new }
    {
        let stopped = self.is_stopped();
        if self.calls.begin(stopped) {
            return Err(DiskFault);
        }
        Ok(copy_from(self.current.at(area), at, into))
    }

    fn write(&mut self, area: Area, at: u64, bytes: &[u8]) -> Result<(), DiskFault>
        requires { ForSome (Some (told_of self.old)) (λ t. at ≤ length (seen t.trail area)) }
        ensures ok { OnOk result (told_of self.new ≡ made 1 (Wrote area at bytes.now ∷ []) (told_of self.old)) }
        ensures fits { OnOk result (at + length bytes.now ≤ 2 ^ 64 - 1) }
        ensures err { OnErr result (Fails (Wrote area at bytes.now) (Some (told_of self.old)) (Some (told_of self.new))) }
        ensures cause { HasCause self.old.calls.faults self.new.calls.faults result }
        ensures ended { EndsOrWants self.old self.new result }
        ensures adds { Adds (Wrote area at bytes.now) (Wrote area at bytes.now ∷ []) self.old self.new result }
        ensures past { self.new.past.items ≡ self.old.past.items }
        ensures stop { self.new.stop ≡ self.old.stop }
        ensures beside { FollowsDisk self.old self.new }
    {
        let stopped = self.is_stopped();
        let refused = self.calls.begin(stopped);
        if stopped {
            return Err(DiskFault);
        }
        if self.stage_write(area, at, bytes).is_err() {
            self.calls.want();
            return Err(DiskFault);
        }
        if refused {
            return Err(DiskFault);
        }
        Ok(())
    }

    fn cut(&mut self, area: Area, size: u64) -> Result<(), DiskFault>
        requires { ForSome (Some (told_of self.old)) (λ t. size ≤ length (seen t.trail area)) }
        ensures ok { OnOk result (told_of self.new ≡ made 1 (Cut area size ∷ []) (told_of self.old)) }
        ensures err { OnErr result (Fails (Cut area size) (Some (told_of self.old)) (Some (told_of self.new))) }
        ensures cause { HasCause self.old.calls.faults self.new.calls.faults result }
        ensures ended { EndsOrWants self.old self.new result }
        ensures adds { Adds (Cut area size) (Cut area size ∷ []) self.old self.new result }
        ensures past { self.new.past.items ≡ self.old.past.items }
        ensures stop { self.new.stop ≡ self.old.stop }
        ensures beside { FollowsDisk self.old self.new }
    {
        let stopped = self.is_stopped();
        let refused = self.calls.begin(stopped);
        if stopped {
            return Err(DiskFault);
        }
        if self.stage_cut(area, size).is_err() {
            self.calls.want();
            return Err(DiskFault);
        }
        if refused {
            return Err(DiskFault);
        }
        Ok(())
    }

    fn sync(&mut self, area: Area) -> Result<(), DiskFault>
        ensures ok { OnOk result (told_of self.new ≡ made 1 (Synced area ∷ []) (told_of self.old)) }
        ensures err { OnErr result (Fails (Synced area) (Some (told_of self.old)) (Some (told_of self.new))) }
        ensures cause { HasCause self.old.calls.faults self.new.calls.faults result }
        ensures ended { EndsOrWants self.old self.new result }
        ensures adds { Adds (Synced area) [] self.old self.new result }
        ensures past { self.new.past.items ≡ self.old.past.items }
        ensures stop { self.new.stop ≡ self.old.stop }
        ensures beside { FollowsDisk self.old self.new }
    {
        let stopped = self.is_stopped();
        if self.calls.begin(stopped) {
            return Err(DiskFault);
        }
        if self.stage_sync(area).is_err() {
            self.calls.want();
            return Err(DiskFault);
        }
        Ok(())
    }
}
