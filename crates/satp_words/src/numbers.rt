ghost use Rattle.std.specs.Prelude.{◌≡◌, ◌≤◌, ℕ, Some, IfSome, decimal};
ghost use Rattle.satp_base.specs.Numbers.{greatest_number};

use satp_base::read_number;

/// The number below 2^32 that a text writes in decimal, without sign or leading zero.
pub(crate) fn number(text: &[u8]) -> Option<u32>
    ensures read { IfSome result (λ number. text.now ≡ decimal number) }
    ensures complete { (number : ℕ) → number ≤ greatest_number → text.now ≡ decimal number → result ≡ Some number }
{
    if text == b"0".as_slice() {
        Some(0)
    } else {
        read_number(text)
    }
}
