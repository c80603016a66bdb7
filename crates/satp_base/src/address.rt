ghost use Rattle.std.specs.Prelude.{◌≡◌, ℕ, take, not, position, IsTrue};
ghost use Rattle.satp_base.specs.Names.{holds_address, is_address_byte};

use crate::fault::NameFault;
use crate::form::fault_of;

/// Where a gateway listens or is found: 1 to 64 letters, digits and `.`, `-`, `:`, `[`, `]`, as in
/// `127.0.0.1:7002` and `[::1]:7002`. Whether anything answers there is not looked at.
#[derive(Clone, Copy, Debug, PartialEq, Eq)]
pub struct Address {
    bytes: [u8; 64],
    count: u8,
    pub ghost valid: { IsTrue (holds_address count bytes) },
}

fn is_address_byte(byte: u8) -> bool
    ensures { result ≡ is_address_byte byte }
{
    byte.is_ascii_alphanumeric() || matches!(byte, b'.' | b'-' | b':' | b'[' | b']')
}

/// The first byte that no address has.
fn first_other(text: &[u8]) -> Option<usize>
    ensures { result ≡ position (λ byte. not (is_address_byte byte)) text.now }
{
    text.iter().position(|byte| !is_address_byte(*byte))
}

impl Address {
    ghost use Rattle.std.specs.Prelude.{◌≡◌, ◌↔◌, Ok, Some, None, IsTrue, IsOk, MatchResult};
    ghost use Rattle.satp_base.specs.Names.{is_address};
    ghost use Rattle.satp_base.specs.Values.{address_text};
    ghost use Rattle.satp_base.specs.Faults.{address_fault};
    ghost use Rattle.satp_base.specs.declared.address.Address.{Address};

    /// Reads an address, the whole text being its bytes.
    ///
    /// `Empty` comes for no byte, `Long` for more than 64, and `BadByte` gives the place of the first byte
    /// that no address has.
    pub fn read(text: &[u8]) -> Result<Address, NameFault>
        ensures form { IsOk result ↔ IsTrue (is_address text.now) }
        ensures read { MatchResult result
            (λ address. (address_fault text.now ≡ None) × (address_text address ≡ text.now))
            (λ fault. address_fault text.now ≡ Some fault) }
        ensures complete { (address : Address) → text.now ≡ address_text address → result ≡ Ok address }
    {
        if let Some(fault) = fault_of(text.len(), 64, first_other(text)) {
            return Err(fault);
        }
        let mut bytes = [0; 64];
        bytes[..text.len()].copy_from_slice(text);
        Ok(Address {
            bytes,
            count: text.len() as u8,
        })
    }

    /// The bytes of the address.
    pub fn bytes(&self) -> &[u8]
        ensures { result.now ≡ address_text self.now }
    {
        &self.bytes[..self.count as usize]
    }
}
