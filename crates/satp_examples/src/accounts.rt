// A ledger of accounts.
ghost use Rattle.satp_examples.specs.Accounts.{HoldingsOfAccounts};

/// What is kept of the first holdings, and what one more adds.
pub fn law_accounts()
    ensures { HoldingsOfAccounts }
{}
