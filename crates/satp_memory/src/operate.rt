ghost use Rattle.std.specs.Prelude.{◌≡◌, Some, option_map};
ghost use Rattle.satp_base.specs.LedgerRule.{leads};
ghost use Rattle.satp_memory.specs.Sites.{OperatesOn, halt_of, is_change};

use satp_base::{Answer, CoreFault, Entry, LedgerCore, LedgerOp, SessionId, Terms};

/// An operation that was answered, and whether it changed an entry.
#[derive(Clone, Copy)]
pub struct Operated {
    pub answer: Answer,
    pub changed: bool,
}

/// Why an operation isn't answered.
#[derive(Clone, Copy)]
pub enum Halt {
    /// There is no ledger.
    Unfounded,
    /// The operation may not be asked of this entry.
    OutOfOrder { entry: Entry },
    /// No memory was found.
    Memory,
}

/// Operates on a ledger, where there is one. An error leaves it as it was.
pub fn operate<C: LedgerCore>(
    core: &mut Option<C>,
    op: LedgerOp,
    session: SessionId,
    terms: &Terms,
) -> Result<Operated, Halt>
    ensures { OperatesOn op session terms.now (option_map C.book core.old) result (option_map C.book core.new) }
{
    match core {
        None => Err(Halt::Unfounded),
        Some(core) => apply(core, op, session, terms),
    }
}

fn apply<C: LedgerCore>(
    core: &mut C,
    op: LedgerOp,
    session: SessionId,
    terms: &Terms,
) -> Result<Operated, Halt>
    ensures { OperatesOn op session terms.now (Some (C.book core.old)) result (Some (C.book core.new)) }
{
    let before = core.entry(session);
    match core.apply(op, session, terms) {
        Ok(answer) => Ok(Operated {
            answer,
            changed: is_change(op, before, answer),
        }),
        Err(fault) => Err(halt_of(fault)),
    }
}

fn halt_of(fault: CoreFault) -> Halt
    ensures { result ≡ halt_of fault }
{
    match fault {
        CoreFault::OutOfOrder { entry } => Halt::OutOfOrder { entry },
        CoreFault::Memory => Halt::Memory,
    }
}

/// The operation was done now, and not before.
fn is_change(op: LedgerOp, before: Entry, answer: Answer) -> bool
    ensures { result ≡ is_change op before answer }
{
    match answer {
        Answer::Done => leads(op, before),
        _ => false,
    }
}

/// The operation moves this entry to its result.
fn leads(op: LedgerOp, entry: Entry) -> bool
    ensures { result ≡ leads op entry }
{
    match op {
        LedgerOp::Lock | LedgerOp::Mint => matches!(entry, Entry::Absent),
        LedgerOp::Burn => matches!(entry, Entry::Locked),
        LedgerOp::Assign => matches!(entry, Entry::Minted),
        LedgerOp::Release => matches!(entry, Entry::Absent | Entry::Locked | Entry::Minted),
    }
}
