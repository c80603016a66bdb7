// What a ledger holds, what it answers, and what it leaves.
ghost use Rattle.satp_examples.specs.Ledgers.{AmountsByEntry, LinesOfTheRule, AmountsOfTheRule, OperationsOnEntries, EntriesOfEvents};

/// What owners have behind each entry, the lines of the rule, its answers by amounts, and the entries that events leave.
pub fn law_ledgers()
    ensures amounts { AmountsByEntry }
    ensures lines { LinesOfTheRule }
    ensures answers { AmountsOfTheRule }
    ensures entries { OperationsOnEntries }
    ensures events { EntriesOfEvents }
{}
