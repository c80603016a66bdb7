// Set-ups that are stopped.
ghost use Rattle.satp_examples.specs.SetUpStops.{StopsOfASetUp};

/// What a stop leaves at each event of a set-up, and what the whole of it leaves.
pub fn law_set_up_stops()
    ensures { StopsOfASetUp }
{}
