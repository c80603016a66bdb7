// What a ledger may be founded with.
ghost use Rattle.satp_examples.specs.Genesis.{LedgersFounded, LinesAdded, LinesOfAText, LinesLeftBehind};

/// Foundings within and past their limits, what a line may add, texts of lines, and what is there behind a fault of one.
pub fn law_genesis()
    ensures founded { LedgersFounded }
    ensures added { LinesAdded }
    ensures lines { LinesOfAText }
    ensures left { LinesLeftBehind }
{}
