use satp_base::{LedgerCall, Text};
use std::marker::Model;

/// A directory that was asked for: how many calls came before, and whether it was entered.
#[derive(Drop)]
pub struct Entering {
    pub dir: Text,
    pub before: u64,
    pub succeeded: bool,
}

impl Model for Entering {
    ghost use Rattle.satp_base.specs.Calls.{Entering};

    ghost Value = { Entering };

    ghost view = { λ e. record { dir = e.dir; before = e.before; succeeded = e.succeeded } };
}

/// A call on the ledger: how many calls came before, and whether it succeeded.
#[derive(Drop)]
pub struct Ask {
    pub call: LedgerCall,
    pub before: u64,
    pub succeeded: bool,
}

impl Model for Ask {
    ghost use Rattle.satp_base.specs.Calls.{Ask};

    ghost Value = { Ask };

    ghost view = { λ a. record { call = a.call; before = a.before; succeeded = a.succeeded } };
}
