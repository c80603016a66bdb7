ghost use Rattle.std.specs.Prelude.{◌≡◌};
ghost use Rattle.satp_base.specs.Roles.{RoleRule};
ghost use Rattle.satp_base.specs.Views.{KeepsTale, begin, push};

use crate::ledger::LedgerOp;
use crate::message::{Kind, Role, Terms};
use crate::record::{Rec, Way};
use crate::tale::Tale;

/// The operations that the ledger has answered with Done.
#[derive(Clone, Copy, Debug, PartialEq, Eq)]
pub struct Done {
    pub lock: bool,
    pub burn: bool,
    pub mint: bool,
    pub assign: bool,
    pub release: bool,
}

/// What the records of a session say so far.
#[derive(Clone, Copy)]
pub struct View {
    pub role: Role,
    pub terms: Terms,
    /// The kinds of the chain's messages.
    pub tale: Tale,
    pub done: Done,
    /// What this side has decided.
    pub way: Option<Way>,
    /// Whether this origin is in a recovery round.
    pub rescue: bool,
}

impl View {
    /// The view after the first record alone: the chain holds the proposal.
    pub fn begin(role: Role, terms: Terms) -> View
        ensures { result ≡ begin role terms }
    {
        let mut tale = Tale::new();
        tale.push(Kind::TransferProposal);
        View {
            role,
            terms,
            tale,
            done: Done {
                lock: false,
                burn: false,
                mint: false,
                assign: false,
                release: false,
            },
            way: None,
            rescue: false,
        }
    }

    /// Adds a record that the role's rule allows.
    pub fn push(&mut self, rec: Rec)
        requires allowed { RoleRule self.old.role self.old rec }
        requires tale { KeepsTale self.old.tale rec }
        ensures { self.new ≡ push self.old rec }
    {
        match rec {
            Rec::Began(_, _) => {}
            Rec::Took(kind) => self.tale.push(kind),
            Rec::Made(kind) => self.tale.push(kind),
            Rec::Did(op) => self.done.add(op),
            Rec::Chose(way) => self.way = Some(way),
            Rec::Rescue => self.rescue = true,
        }
    }
}

impl Done {
    ghost use Rattle.std.specs.Prelude.{◌≡◌};
    ghost use Rattle.satp_base.specs.Views.{with_done};

    /// Adds an operation.
    fn add(&mut self, op: LedgerOp)
        ensures { self.new ≡ with_done op self.old }
    {
        match op {
            LedgerOp::Lock => self.lock = true,
            LedgerOp::Burn => self.burn = true,
            LedgerOp::Mint => self.mint = true,
            LedgerOp::Assign => self.assign = true,
            LedgerOp::Release => self.release = true,
        }
    }
}
