ghost use Rattle.std.specs.Prelude.{◌≡◌, ◌≤◌, ◌<◌, false, None, length, is_err, IfOk, OnOk, OnErr};
ghost use Rattle.std.specs.Io.KnownBytes.{ReadConsumes, WriteAppends};
ghost use Rattle.satp_base.specs.Streams.{Rose, is_last};

use satp_base::{Sink, SinkFault, Source, SourceFault};
use std::io::{Read, Write};

/// A reader of the system as a source. It tells nothing of its bytes, and counts its faults. What it gives are the bytes that its reader gives.
#[derive(Drop)]
pub struct Input<R> {
    reader: R,
    faults: u64,
    /// The last read found the end, or failed.
    is_over: bool,
}

impl<R: Read + Drop> Input<R> {
    /// A source that hasn't been read yet.
    pub fn new(reader: R) -> Input<R>
        ensures { result ≡ record { reader = reader; faults = 0; is_over = false } }
    {
        Input {
            reader,
            faults: 0,
            is_over: false,
        }
    }
}

impl<R: Read + Drop> Source for Input<R> {
    ghost faults = { λ s. s.faults };

    ghost left = { λ _. None };

    ghost is_over = { λ s. s.is_over };

    fn read(&mut self, into: &mut [u8]) -> Result<usize, SourceFault>
        ensures over { self.new.is_over ≡ is_last (length into.new) result }
        ensures faults { self.old.faults ≤ self.new.faults }
        ensures kept { OnOk result (self.new.faults ≡ self.old.faults) }
        ensures rose { OnErr result (Rose self.old.faults self.new.faults) }
        ensures bound { IfOk result (λ n. n ≤ length into.new) }
        ensures reader { ReadConsumes (R.remaining self.old.reader) (R.remaining self.new.reader) result into.new }
    {
        match self.reader.read(into) {
            Ok(count) => {
                self.is_over = count == 0 && !into.is_empty();
                Ok(count)
            }
            Err(_) => {
                self.is_over = true;
                self.faults = self.faults.saturating_add(1);
                Err(SourceFault)
            }
        }
    }
}

/// A writer of the system as a sink. It tells nothing of its bytes, and counts its faults. Its writer gets the piece as it is.
#[derive(Drop)]
pub struct Output<W> {
    writer: W,
    faults: u64,
    /// The last write failed.
    has_failed: bool,
}

impl<W: Write + Drop> Output<W> {
    /// A sink that hasn't been written to yet.
    pub fn new(writer: W) -> Output<W>
        ensures { result ≡ record { writer = writer; faults = 0; has_failed = false } }
    {
        Output {
            writer,
            faults: 0,
            has_failed: false,
        }
    }
}

impl<W: Write + Drop> Sink for Output<W> {
    ghost faults = { λ s. s.faults };

    ghost taken = { λ _. None };

    ghost has_failed = { λ s. s.has_failed };

    /// A writer that takes nothing of a piece fails here.
    fn write(&mut self, piece: &[u8]) -> Result<usize, SinkFault>
        ensures failed { self.new.has_failed ≡ is_err result }
        ensures faults { self.old.faults ≤ self.new.faults }
        ensures kept { OnOk result (self.new.faults ≡ self.old.faults) }
        ensures rose { OnErr result (Rose self.old.faults self.new.faults) }
        ensures bound { IfOk result (λ n. n ≤ length piece.now) }
        ensures some { IfOk result (λ n. 0 < length piece.now → 0 < n) }
        ensures writer { WriteAppends (W.contents self.old.writer) (W.contents self.new.writer) result piece.now }
    {
        self.has_failed = false;
        match self.writer.write(piece) {
            Ok(count) if count > 0 || piece.is_empty() => Ok(count),
            _ => {
                self.has_failed = true;
                self.faults = self.faults.saturating_add(1);
                Err(SinkFault)
            }
        }
    }
}
