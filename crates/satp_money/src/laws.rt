// Laws over definitions alone.
ghost use Rattle.satp_money.specs.Laws.{ElseStays, FinishedStays, FreeMoves, OthersStay, OutOfOrderIsNoAnswer, OwnersHaveAll, RuleIsFunction, TotalsMove};

/// The rule by its cases and the rule as a function are one, in both directions.
pub fn law_rule()
    ensures answers { RuleIsFunction }
    ensures order { OutOfOrderIsNoAnswer }
{}

/// What is burnt, assigned or released stays so, and an operation leaves the entries of other sessions.
pub fn law_finished()
    ensures finished { FinishedStays }
    ensures others { OthersStay }
{}

/// What all owners are free to use, with what is locked and minted, is all that there is.
pub fn law_totals()
    ensures { OwnersHaveAll }
{}

/// No unit of an asset appears but by a mint, and none is gone but by a burn or by the release of what was minted. What an owner is free to use falls by a lock alone, and rises by what is assigned or comes back.
pub fn law_moves()
    ensures moves { TotalsMove }
    ensures free { FreeMoves }
    ensures stays { ElseStays }
{}
