// Kept ledgers that aren't opened or founded, and foundings that are stopped.
ghost use Rattle.satp_examples.specs.KeeperStops.{LedgersThatAreNotOpened, CallsOfAFounding, LedgersThatAreNotFounded, StopsOfAFounding, KeptAsLedgers};

/// Why a ledger isn't opened or founded, which calls a founding makes, what a stop leaves of a founding, and what a keeper answers as a ledger.
pub fn law_keeper_stops()
    ensures unopened { LedgersThatAreNotOpened }
    ensures calls { CallsOfAFounding }
    ensures unfounded { LedgersThatAreNotFounded }
    ensures founding { StopsOfAFounding }
    ensures ledger { KeptAsLedgers }
{}
