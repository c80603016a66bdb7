// The bytes that came and were not taken yet.
ghost use Rattle.std.specs.Prelude.{◌≡◌, ◌≤◌, [], drop, length, IfOk};
ghost use Rattle.satp_http.specs.Feeds.{Adds};
ghost use Rattle.satp_http.specs.Heads.{room};

use crate::head::LONGEST;
use satp_base::Memory;
use std::alloc::Global;
use std::marker::Model;

/// The most bytes that are held: a head and a body.
const ROOM: usize = LONGEST + LONGEST;

/// A buffer whose room is reserved when it is made.
#[derive(Drop)]
pub(crate) struct Buffer {
    bytes: Vec<u8>,
}

impl Model for Buffer {
    ghost use Rattle.std.specs.Prelude.{◌≤◌, ℕ, List, length, vec_capacity};
    ghost use Rattle.satp_http.specs.Heads.{room};

    ghost Value = { List ℕ };

    ghost view = { λ b. b.bytes.items };

    ghost invariant = { λ b. (room ≤ vec_capacity b.bytes) × (length b.bytes.items ≤ room) };
}

impl Buffer {
    pub(crate) fn new(alloc: Global) -> Result<Buffer, Memory>
        ensures { IfOk result (λ buffer. buffer ≡ []) }
    {
        Ok(Buffer {
            bytes: Vec::with_capacity(alloc, ROOM)?,
        })
    }

    /// Adds as much of the piece as there is room for, and says how much that was.
    pub(crate) fn add(&mut self, piece: &[u8]) -> usize
        ensures adds { Adds piece.now self.old self.new result }
        ensures most { length self.new ≤ room }
    {
        let count = piece.len().min(ROOM - self.bytes.len());
        let _ = self.bytes.extend_from_slice(&piece[..count]);
        count
    }

    pub(crate) fn bytes(&self) -> &[u8]
        ensures same { result.now ≡ self.now }
        ensures most { length self.now ≤ room }
    {
        self.bytes.as_slice()
    }

    pub(crate) fn drop_front(&mut self, count: usize)
        requires { count ≤ length self.old }
        ensures { self.new ≡ drop count self.old }
    {
        let rest = self.bytes.len() - count;
        self.bytes.copy_within(count.., 0);
        self.bytes.truncate(rest);
    }
}
