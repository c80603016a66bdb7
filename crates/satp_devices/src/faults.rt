ghost use Rattle.std.specs.Prelude.{◌≡◌};
ghost use Rattle.satp_base.specs.Streams.{HasCause};
ghost use Rattle.satp_devices.specs.Counting.{Counts};

/// Hands an answer on, and counts it where it is a fault. The count stands still at its last number.
pub fn counted<T, E>(faults: &mut u64, answer: Result<T, E>) -> Result<T, E>
    ensures same { result ≡ answer }
    ensures cause { HasCause faults.old faults.new result }
    ensures counts { Counts faults.old faults.new result }
{
    if answer.is_err() {
        *faults = faults.saturating_add(1);
    }
    answer
}
