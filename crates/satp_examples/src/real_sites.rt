// What a real site does with its ledger, and a real disk with its directory.
ghost use Rattle.satp_examples.specs.RealSites.{CallsOnALedger, DisksOfADirectory, LedgersOfASite, PlacesOfADisk};

/// Foundings, openings, operations and looks of a real site, and counts and places of a real disk, with near misses.
pub fn law_real_sites()
    ensures disks { DisksOfADirectory }
    ensures ledgers { LedgersOfASite }
    ensures calls { CallsOnALedger }
    ensures places { PlacesOfADisk }
{}
