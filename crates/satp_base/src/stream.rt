ghost use Rattle.std.specs.Prelude.{◌≡◌, ℕ, ◌≤◌, Bool, false, List, length, Option, is_err, IfOk, OnOk, OnErr};
ghost use Rattle.satp_base.specs.Streams.{Rose, TakesFront, Gains, is_last};

/// A read failed.
#[derive(Clone, Copy, Debug, PartialEq, Eq)]
pub struct SourceFault;

/// A write failed.
#[derive(Clone, Copy, Debug, PartialEq, Eq)]
pub struct SinkFault;

/// Bytes that are read once, from the first to the last. A source that has ended or failed isn't read again.
pub trait Source {
    /// How many reads have failed.
    ghost faults: { Self → ℕ };

    /// The bytes that are left, where they are told.
    ghost left: { Self → Option (List ℕ) };

    /// Whether a read found its end or failed, which every source says.
    ghost is_over: { Self → Bool };

    /// Fills a prefix of `into`, and answers how many bytes it has. 0 with room left is the end.
    fn read(&mut self, into: &mut [u8]) -> Result<usize, SourceFault>
        requires { is_over self.old ≡ false }
        ensures over { is_over self.new ≡ is_last (length into.new) result }
        ensures faults { faults self.old ≤ faults self.new }
        ensures kept { OnOk result (faults self.new ≡ faults self.old) }
        ensures rose { OnErr result (Rose (faults self.old) (faults self.new)) }
        ensures ok { IfOk result (λ n. TakesFront (left self.old) into.new n (left self.new)) }
        ensures err { OnErr result (left self.new ≡ left self.old) };
}

/// Bytes that are written one after another. A sink that failed isn't written to again.
pub trait Sink {
    /// How many writes have failed.
    ghost faults: { Self → ℕ };

    /// The bytes taken so far, where they are told.
    ghost taken: { Self → Option (List ℕ) };

    /// Whether a write failed, which every sink says.
    ghost has_failed: { Self → Bool };

    /// Takes a prefix of a piece, at least one byte where there is one, and answers how many bytes it has.
    fn write(&mut self, piece: &[u8]) -> Result<usize, SinkFault>
        requires { has_failed self.old ≡ false }
        ensures failed { has_failed self.new ≡ is_err result }
        ensures faults { faults self.old ≤ faults self.new }
        ensures kept { OnOk result (faults self.new ≡ faults self.old) }
        ensures rose { OnErr result (Rose (faults self.old) (faults self.new)) }
        ensures ok { IfOk result (λ n. Gains (taken self.old) piece.now n (taken self.new)) }
        ensures err { OnErr result (taken self.new ≡ taken self.old) };
}
