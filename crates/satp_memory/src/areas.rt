ghost use Rattle.std.specs.Prelude.{◌≡◌, ◌≤◌, ℕ, List, [], length, replicate, take, IfOk, if◌then◌else◌};
ghost use Rattle.satp_base.specs.Trail.{same_area, overlaid};
ghost use Rattle.satp_base.specs.declared.area.Area.{Area};
ghost use Rattle.satp_memory.specs.Areas.{bytes_in};

use satp_base::Area;
use std::alloc::{AllocError, Global};

/// The bytes of the three areas.
#[derive(Drop)]
pub struct Areas {
    pub journal_a: Vec<u8>,
    pub journal_b: Vec<u8>,
    pub ledger: Vec<u8>,
}

impl Areas {
    pub fn new(alloc: Global) -> Areas
        ensures { (a : Area) → bytes_in result a ≡ [] }
    {
        Areas {
            journal_a: Vec::new(alloc),
            journal_b: Vec::new(alloc),
            ledger: Vec::new(alloc),
        }
    }

    pub fn copy(&self, alloc: Global) -> Result<Areas, AllocError>
        ensures { IfOk result (λ areas. (a : Area) → bytes_in areas a ≡ bytes_in self.now a) }
    {
        Ok(Areas {
            journal_a: Vec::from_slice(alloc, &self.journal_a)?,
            journal_b: Vec::from_slice(alloc, &self.journal_b)?,
            ledger: Vec::from_slice(alloc, &self.ledger)?,
        })
    }

    /// As many zeros as there are bytes.
    pub fn zeros(&self, alloc: Global) -> Result<Areas, AllocError>
        ensures { IfOk result (λ areas. (a : Area) → bytes_in areas a ≡ replicate (length (bytes_in self.now a)) 0) }
    {
        Ok(Areas {
            journal_a: repeated(alloc, 0, self.journal_a.len())?,
            journal_b: repeated(alloc, 0, self.journal_b.len())?,
            ledger: repeated(alloc, 0, self.ledger.len())?,
        })
    }

    /// The bytes of one area.
    pub fn at(&self, area: Area) -> &[u8]
        ensures { result.now ≡ bytes_in self.now area }
    {
        match area {
            Area::JournalA => &self.journal_a,
            Area::JournalB => &self.journal_b,
            Area::Ledger => &self.ledger,
        }
    }

    /// Puts bytes in the place of an area's.
    pub fn put(&mut self, area: Area, bytes: Vec<u8>)
        ensures { (a : Area) → bytes_in self.new a ≡ (if same_area area a then bytes.items else bytes_in self.old a) }
    {
        match area {
            Area::JournalA => self.journal_a = bytes,
            Area::JournalB => self.journal_b = bytes,
            Area::Ledger => self.ledger = bytes,
        }
    }
}

/// The bytes with others laid over them from a place on.
pub fn overlay(alloc: Global, old: &[u8], at: usize, bytes: &[u8]) -> Result<Vec<u8>, AllocError>
    requires { at ≤ length old.now }
    ensures { IfOk result (λ v. v.items ≡ overlaid old.now at bytes.now) }
{
    let mut next = Vec::from_slice(alloc, &old[..at])?;
    next.extend_from_slice(bytes)?;
    if bytes.len() < old.len() - at {
        next.extend_from_slice(&old[at + bytes.len()..])?;
    }
    Ok(next)
}

/// One byte, so many times.
pub fn repeated(alloc: Global, byte: u8, count: usize) -> Result<Vec<u8>, AllocError>
    ensures { IfOk result (λ v. v.items ≡ replicate count byte) }
{
    vec![in alloc; byte; count]
}

/// The first bytes.
pub fn front(alloc: Global, old: &[u8], size: usize) -> Result<Vec<u8>, AllocError>
    requires { size ≤ length old.now }
    ensures { IfOk result (λ v. v.items ≡ take size old.now) }
{
    Vec::from_slice(alloc, &old[..size])
}
