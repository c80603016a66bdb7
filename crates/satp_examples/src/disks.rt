// What a stop and a failed call may leave of an area, and what a device tells of its calls.
ghost use Rattle.satp_examples.specs.Disks.{StopsAfterAWrite, StopsAfterAnExtension, StopsAfterACut, StopsAfterASync, LeftByFailures};

/// What a stop may leave behind a write, a cut and a sync, and what may be left behind a failed call.
pub fn law_disks()
    ensures write { StopsAfterAWrite }
    ensures extension { StopsAfterAnExtension }
    ensures cut { StopsAfterACut }
    ensures sync { StopsAfterASync }
    ensures left { LeftByFailures }
{}
