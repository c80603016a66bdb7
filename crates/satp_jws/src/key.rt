ghost use Rattle.std.specs.Prelude.{◌≡◌, ◌≤◌, ◌-◌, ℕ, take, drop, length, None, Some, MatchResult};

use crate::fault::KeyFault;
use std::marker::Model;

/// The fewest bytes of a key: those of a hash (RFC 7518, section 3.2).
const SHORTEST: usize = 32;

/// The most, a limit of this project.
const LONGEST: usize = 64;

/// A key of 32 to 64 bytes, seen as the list of its bytes.
#[derive(Drop)]
pub struct Key {
    bytes: [u8; 64],
    count: u8,
}

impl Model for Key {
    ghost use Rattle.std.specs.Prelude.{ℕ, ◌≤◌, List, take};

    ghost Value = { List ℕ };

    ghost view = { λ key. take key.count key.bytes };

    ghost invariant = { λ key. (32 ≤ key.count) × (key.count ≤ 64) };
}

impl Key {
    ghost use Rattle.satp_jws.specs.Faults.{key_fault};

    /// The key of these bytes.
    pub fn new(bytes: &[u8]) -> Result<Key, KeyFault>
        ensures { MatchResult result
            (λ key. (key_fault bytes.now ≡ None) × (key ≡ bytes.now))
            (λ fault. key_fault bytes.now ≡ Some fault) }
    {
        let length = bytes.len();
        if length < SHORTEST {
            return Err(KeyFault::Short { length });
        }
        if length > LONGEST {
            return Err(KeyFault::Long { length });
        }
        let mut key = [0; LONGEST];
        key[..length].copy_from_slice(bytes);
        Ok(Key {
            bytes: key,
            count: length as u8,
        })
    }

    pub(crate) fn bytes(&self) -> &[u8]
        ensures { result.now ≡ self.now }
    {
        &self.bytes[..self.count as usize]
    }
}
