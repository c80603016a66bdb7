ghost use Rattle.std.specs.Prelude.{◌≡◌, ◌≢◌, ◌≤◌, ◌<◌, ◌&&◌, ◌==◌, Option, Some, [], ℕ, Bool, true, false, length, nat_lt, take, option_map, IfOk, OnOk, OnErr};
ghost use Rattle.satp_base.specs.Streams.{HasCause};
ghost use Rattle.satp_base.specs.Wires.{Traffic, called, hears, says, MayMiss};
ghost use Rattle.satp_base.specs.declared.wire.Dial.TheVariants.{Listen, Accept, Connect};

use crate::address::Address;

/// A call on a wire failed.
#[derive(Clone, Copy, Debug, PartialEq, Eq)]
pub struct WireFault;

/// A call that begins to listen, or opens a connection, as a wire tells it.
#[derive(Clone, Copy, Debug, PartialEq, Eq)]
pub enum Dial {
    Listen { at: Address },
    Accept,
    Connect { at: Address },
}

/// One connection at a time, in either direction.
///
/// Each call answers `WireFault` only where the count of faults rose in it, or stands at the end of its type. A failed call has heard and said nothing, and opens and closes nothing.
pub trait Wire {
    /// What it tells of all connections so far, if it tells.
    ghost told: { Self → Option Traffic };

    /// How often it has failed. The number never falls.
    ghost faults: { Self → ℕ };

    /// Whether it listens, which every wire says.
    ghost listens: { Self → Bool };

    /// Whether a connection is open, which every wire says.
    ghost is_open: { Self → Bool };

    /// How all else that a wire knows goes on from one moment to a later one: as with one whose peer stands behind it.
    ghost beside: { Self → Self → Type 0 } = { λ _ _. Unit {0} };

    /// Begins to listen at an address.
    fn listen(&mut self, at: &Address) -> Result<(), WireFault>
        ensures ok { OnOk result ((listens self.new ≡ true) × (told self.new ≡ option_map (called (Listen at.now)) (told self.old))) }
        ensures err { OnErr result ((listens self.new ≡ listens self.old) × MayMiss (Listen at.now) (told self.old) (told self.new)) }
        ensures kept { is_open self.new ≡ is_open self.old }
        ensures beside { beside self.old self.new }
        ensures cause { HasCause (faults self.old) (faults self.new) result };

    /// Waits for a peer that connects.
    fn accept(&mut self) -> Result<(), WireFault>
        requires listens { listens self.old ≡ true }
        requires free { is_open self.old ≡ false }
        ensures ok { OnOk result ((is_open self.new ≡ true) × (told self.new ≡ option_map (called Accept) (told self.old))) }
        ensures err { OnErr result ((is_open self.new ≡ false) × MayMiss Accept (told self.old) (told self.new)) }
        ensures kept { listens self.new ≡ listens self.old }
        ensures beside { beside self.old self.new }
        ensures cause { HasCause (faults self.old) (faults self.new) result };

    /// Connects to a peer.
    fn connect(&mut self, at: &Address) -> Result<(), WireFault>
        requires free { is_open self.old ≡ false }
        ensures ok { OnOk result ((is_open self.new ≡ true) × (told self.new ≡ option_map (called (Connect at.now)) (told self.old))) }
        ensures err { OnErr result ((is_open self.new ≡ false) × MayMiss (Connect at.now) (told self.old) (told self.new)) }
        ensures kept { listens self.new ≡ listens self.old }
        ensures beside { beside self.old self.new }
        ensures cause { HasCause (faults self.old) (faults self.new) result };

    /// Fills the front of `into` with bytes that the peer said, and answers how many; 0 with room left is the end.
    fn read(&mut self, into: &mut [u8]) -> Result<usize, WireFault>
        requires { is_open self.old ≡ true }
        ensures within { IfOk result (λ n. n ≤ length into.new) }
        ensures ok { IfOk result (λ n. told self.new ≡ option_map (hears (take n into.new) ((n == 0) && nat_lt 0 (length into.new))) (told self.old)) }
        ensures err { OnErr result (told self.new ≡ told self.old) }
        ensures kept { (listens self.new ≡ listens self.old) × (is_open self.new ≡ true) }
        ensures beside { beside self.old self.new }
        ensures cause { HasCause (faults self.old) (faults self.new) result };

    /// Says the front of a piece, at least one byte where there is one, and answers how many.
    fn write(&mut self, piece: &[u8]) -> Result<usize, WireFault>
        requires { is_open self.old ≡ true }
        ensures within { IfOk result (λ n. n ≤ length piece.now) }
        ensures some { 0 < length piece.now → IfOk result (λ n. 0 < n) }
        ensures ok { IfOk result (λ n. told self.new ≡ option_map (says (take n piece.now)) (told self.old)) }
        ensures err { OnErr result (told self.new ≡ told self.old) }
        ensures kept { (listens self.new ≡ listens self.old) × (is_open self.new ≡ true) }
        ensures beside { beside self.old self.new }
        ensures cause { HasCause (faults self.old) (faults self.new) result };

    /// Ends the connection, and leaves what is told.
    fn shut(&mut self)
        ensures told { told self.new ≡ told self.old }
        ensures open { is_open self.new ≡ false }
        ensures listens { listens self.new ≡ listens self.old }
        ensures beside { beside self.old self.new }
        ensures faults { faults self.new ≡ faults self.old };

    /// The connection that is open is the last one that it tells.
    ghost one_open: { (wire : Self) (t : Traffic) → told wire ≡ Some t → is_open wire ≡ true → t.conversations ≢ [] };

    /// It goes on so where nothing is called.
    ghost beside_same: { (wire : Self) → beside wire wire };

    /// It goes on so over two calls where it does over each.
    ghost beside_then: { (a b c : Self) → beside a b → beside b c → beside a c };
}
