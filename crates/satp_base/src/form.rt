ghost use Rattle.std.specs.Prelude.{◌≡◌};
ghost use Rattle.satp_base.specs.Faults.{fault_by};

use crate::fault::NameFault;

/// Why a text of this length is not 1 to `most` bytes of a form; `other` is the place of its first byte
/// that is not of the form.
pub(crate) fn fault_of(length: usize, most: usize, other: Option<usize>) -> Option<NameFault>
    ensures { result ≡ fault_by most length other }
{
    if length == 0 {
        Some(NameFault::Empty)
    } else if length > most {
        Some(NameFault::Long { length })
    } else {
        other.map(|at| NameFault::BadByte { at })
    }
}
