ghost use Rattle.std.specs.Prelude.{◌≡◌, ◌≤◌, ◌+◌, ◌⊎◌, ◌<◌, [], ◌∷◌, ◌++◌, length, slice_get, slice_index, vec_len, vec_capacity, OnOk, OnErr};
ghost use Rattle.std.specs.Option.{option_copied};
ghost use Rattle.satp_journal.specs.Pieces.{Rises, pieces, start_at};

use std::alloc::{AllocError, Global};
use std::marker::Model;

/// Payloads in memory: their bytes behind one another, and the place of each one's end.
#[derive(Drop)]
pub struct Stock {
    bytes: Vec<u8>,
    ends: Vec<usize>,
}

impl Model for Stock {
    ghost use Rattle.std.specs.Prelude.{◌-◌, length, vec_len, vec_capacity};
    ghost use Rattle.satp_journal.specs.Pieces.{StockState, Rises, pieces};

    ghost Value = { StockState };

    ghost view = { λ s. record {
      payloads = pieces 0 s.ends.items s.bytes.items;
      spare_records = vec_capacity s.ends - vec_len s.ends;
      spare_bytes = vec_capacity s.bytes - vec_len s.bytes;
    } };

    ghost invariant = { λ s. Rises 0 s.ends.items (length s.bytes.items) };
}

impl Stock {
    pub fn new(alloc: Global) -> Stock
        ensures { result.payloads ≡ [] }
    {
        Stock {
            bytes: Vec::new(alloc),
            ends: Vec::new(alloc),
        }
    }

    /// Finds room for so many further payloads, and for so many bytes of them together.
    pub fn reserve(&mut self, records: usize, bytes: usize) -> Result<(), AllocError>
        ensures same { self.new.payloads ≡ self.old.payloads }
        ensures records { OnOk result (records ≤ self.new.spare_records) }
        ensures bytes { OnOk result (bytes ≤ self.new.spare_bytes) }
        ensures more_records { self.old.spare_records ≤ self.new.spare_records }
        ensures more_bytes { self.old.spare_bytes ≤ self.new.spare_bytes }
        ensures full { OnErr result ((self.old.spare_records < records) ⊎ (self.old.spare_bytes < bytes)) }
    {
        self.ends.reserve(records)?;
        self.bytes.reserve(bytes)
    }

    /// Adds a payload for which there is room.
    pub fn push(&mut self, payload: &[u8])
        requires record { 1 ≤ self.old.spare_records }
        requires bytes { length payload.now ≤ self.old.spare_bytes }
        ensures pushed { self.new.payloads ≡ self.old.payloads ++ payload.now ∷ [] }
        ensures records { self.old.spare_records ≤ self.new.spare_records + 1 }
        ensures spare { self.old.spare_bytes ≤ self.new.spare_bytes + length payload.now }
    {
        let end = self.bytes.len() + payload.len();
        extend(&mut self.bytes, payload);
        add(&mut self.ends, end);
    }

    pub fn len(&self) -> usize
        ensures { result ≡ length self.now.payloads }
    {
        self.ends.len()
    }

    pub fn get(&self, index: usize) -> Option<&[u8]>
        ensures { option_copied result ≡ slice_get self.now.payloads index }
    {
        piece(&self.bytes, &self.ends, index)
    }
}

/// Adds bytes for which there is room.
fn extend(bytes: &mut Vec<u8>, more: &[u8])
    requires { vec_len bytes.old + length more.now ≤ vec_capacity bytes.old }
    ensures items { bytes.new.items ≡ bytes.old.items ++ more.now }
    ensures len { vec_len bytes.new ≡ vec_len bytes.old + length more.now }
    ensures capacity { vec_capacity bytes.old ≤ vec_capacity bytes.new }
{
    let _ = bytes.extend_from_slice(more);
}

/// Adds an end for which there is room.
fn add(ends: &mut Vec<usize>, end: usize)
    requires { vec_len ends.old < vec_capacity ends.old }
    ensures items { ends.new.items ≡ ends.old.items ++ end ∷ [] }
    ensures len { vec_len ends.new ≡ vec_len ends.old + 1 }
    ensures capacity { vec_capacity ends.old ≤ vec_capacity ends.new }
{
    let _ = ends.push(end);
}

/// The bytes between the end before and the end at an index.
fn piece<'a>(bytes: &'a [u8], ends: &[usize], index: usize) -> Option<&'a [u8]>
    requires { Rises 0 ends.now (length bytes.now) }
    ensures { option_copied result ≡ slice_get (pieces 0 ends.now bytes.now) index }
{
    if index >= ends.len() {
        return None;
    }
    let (start, end) = bounds(bytes, ends, index);
    Some(&bytes[start..end])
}

/// Where the payload at an index begins and ends.
fn bounds(bytes: &[u8], ends: &[usize], index: usize) -> (usize, usize)
    requires rises { Rises 0 ends.now (length bytes.now) }
    requires there { index < length ends.now }
    ensures start { result.0 ≡ start_at 0 ends.now index }
    ensures end { result.1 ≡ slice_index ends.now index }
    ensures order { result.0 ≤ result.1 }
    ensures within { result.1 ≤ length bytes.now }
{
    (start_of(ends, index), ends[index])
}

fn start_of(ends: &[usize], index: usize) -> usize
    requires { index < length ends.now }
    ensures { result ≡ start_at 0 ends.now index }
{
    if index == 0 { 0 } else { ends[index - 1] }
}
