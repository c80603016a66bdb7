ghost use Rattle.std.specs.Prelude.{◌≡◌, IfOk, OnOk};
ghost use Rattle.std.specs.List.{All};
ghost use Rattle.satp_base.specs.Roles.{IsReached, RoleRule, next_of};
ghost use Rattle.satp_sides.specs.Logs.{IsNote};
ghost use Rattle.satp_plan.specs.Outlines.{AddsAnswers, AddsMintRefused, AddsPart, AddsRec, AddsTurns, FitsTale};
ghost use Rattle.satp_plan.specs.Plans.{AreAmong};

use crate::roles::{made_part, next};
use satp_base::{Cause, Kind, LedgerOp, Memory, Next, Part, Rec, View, Way};
use std::alloc::Global;

/// What may come due in a session: records without a message, and the parts of messages.
#[derive(Drop)]
pub(crate) struct Outline {
    pub(crate) recs: Vec<Rec>,
    pub(crate) parts: Vec<Part>,
}

impl Outline {
    /// What may come due within so many turns, whatever the ledger answers.
    pub(crate) fn new(alloc: Global, view: &View, turns: u8) -> Result<Outline, Memory>
        requires { IsReached view.now.role view.now }
        ensures covers { IfOk result (λ outline. AreAmong turns outline.recs.items outline.parts.items view.now) }
        ensures notes { IfOk result (λ outline. All IsNote outline.recs.items) }
        ensures fitting { IfOk result (λ outline. All (FitsTale view.now.tale) outline.parts.items) }
    {
        let mut outline = Outline {
            recs: Vec::new(alloc),
            parts: Vec::new(alloc),
        };
        add_turns(&mut outline, view, turns)?;
        Ok(outline)
    }
}

/// Adds what may come due within so many turns.
#[cycle(turns)]
fn add_turns(outline: &mut Outline, view: &View, turns: u8) -> Result<(), Memory>
    requires { IsReached view.now.role view.now }
    ensures { OnOk result (AddsTurns turns view.now outline.old outline.new) }
{
    if turns == 0 {
        return Ok(());
    }
    match next(view) {
        Next::Append(rec) => match rec {
            Rec::Made(kind) => add_part(outline, view, kind),
            _ => add_rec(outline, view, rec, turns - 1),
        },
        Next::Act(op) => add_answers(outline, view, op, turns - 1),
        Next::Wait | Next::Ended => Ok(()),
    }
}

/// Adds the part of a message that is due. After it nothing is due.
fn add_part(outline: &mut Outline, view: &View, kind: Kind) -> Result<(), Memory>
    requires reached { IsReached view.now.role view.now }
    requires due { next_of view.now.role view.now ≡ Next.Append (Rec.Made kind) }
    ensures { OnOk result (AddsPart view.now kind outline.old outline.new) }
{
    outline.parts.push(made_part(view.way, kind))?;
    Ok(())
}

/// Adds a record that may come, and what may come due within so many turns after it.
#[cycle(turns)]
fn add_rec(outline: &mut Outline, view: &View, rec: Rec, turns: u8) -> Result<(), Memory>
    requires reached { IsReached view.now.role view.now }
    requires rule { RoleRule view.now.role view.now rec }
    requires note { IsNote rec }
    ensures { OnOk result (AddsRec turns view.now rec outline.old outline.new) }
{
    outline.recs.push(rec)?;
    let mut after = *view;
    after.push(rec);
    add_turns(outline, &after, turns)
}

/// Adds the record after each answer that the operation may have, and what may come due after it.
#[cycle(turns)]
fn add_answers(outline: &mut Outline, view: &View, op: LedgerOp, turns: u8) -> Result<(), Memory>
    requires reached { IsReached view.now.role view.now }
    requires due { next_of view.now.role view.now ≡ Next.Act op }
    ensures { OnOk result (AddsAnswers turns view.now op outline.old outline.new) }
{
    add_rec(outline, view, Rec::Did(op), turns)?;
    match op {
        LedgerOp::Lock => add_rec(
            outline,
            view,
            Rec::Chose(Way::Back(Cause::LockRefused)),
            turns,
        ),
        LedgerOp::Mint => add_mint_refused(outline, view, turns),
        _ => Ok(()),
    }
}

/// Adds the record after each answer that refuses a mint, and what may come due after it.
#[cycle(turns)]
fn add_mint_refused(outline: &mut Outline, view: &View, turns: u8) -> Result<(), Memory>
    requires reached { IsReached view.now.role view.now }
    requires due { next_of view.now.role view.now ≡ Next.Act LedgerOp.Mint }
    ensures { OnOk result (AddsMintRefused turns view.now outline.old outline.new) }
{
    add_rec(
        outline,
        view,
        Rec::Chose(Way::Back(Cause::UnknownAsset)),
        turns,
    )?;
    add_rec(
        outline,
        view,
        Rec::Chose(Way::Back(Cause::MintCapped)),
        turns,
    )?;
    add_rec(
        outline,
        view,
        Rec::Chose(Way::Back(Cause::LedgerTaken)),
        turns,
    )
}
