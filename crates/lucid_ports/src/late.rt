// Calls that come late.
ghost use Rattle.lucid_ports.specs.Faults.{CountsLate};

/// The count of late calls behind one more call: one more where a call has failed, but no more than the last value of its type.
pub fn late_after(faults: u64, late: u64) -> u64
    ensures { CountsLate faults late result }
{
    if faults == 0 {
        late
    } else {
        late.saturating_add(1)
    }
}
