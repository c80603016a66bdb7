ghost use Rattle.std.specs.Prelude.{◌≡◌, ◌∷◌, [], Some, None, Ok, IfOk, OnOk, OnErr};
ghost use Rattle.satp_base.specs.Acts.{MayAnswer};
ghost use Rattle.satp_base.specs.Roles.{after_of, next_of};
ghost use Rattle.satp_base.specs.Streams.{HasCause};
ghost use Rattle.satp_log.specs.Folding.{State, state_with};
ghost use Rattle.satp_sides.specs.Due.{most_turns};
ghost use Rattle.satp_sides.specs.Points.{Appends, stored};
ghost use Rattle.satp_points.specs.States.{tells};
ghost use Rattle.satp_engine.specs.Planning.{Planned, PlannedAnswers, PlannedDue, PlannedMaking, PlannedNote};
ghost use Rattle.satp_engine.specs.Turning.{TurnAnswers, WorkAnswers};
ghost use Rattle.satp_engine.specs.Working.{Fails, Grows, HasRoom, HasState, Makes, Stands, TakesRoom};

use crate::records::Records;
use satp_base::{
    Answer, Kind, LedgerOp, Next, Rec, Role, SessionId, Site, SiteFault, Text, View, Way,
};
use satp_plan::{Making, Plan, made_part, next};

/// No due work takes more turns.
const MOST_TURNS: u8 = 3;

/// What a turn of due work came to.
#[derive(Drop)]
pub enum Turn {
    /// A record without a message was stored.
    Stored,
    /// A message was made and stored; this is its text.
    Said(Text),
    /// Nothing is due.
    Rested,
}

impl Records {
    /// Does the due work of a session: what the table of its role makes due, until nothing is, from what was planned for
    /// it. The text is that of the message that was made, if one was.
    ///
    /// A fault is that of a call on the site, or that an operation is out of order.
    pub fn work<S: Site>(
        &mut self,
        site: &mut S,
        session: SessionId,
        plan: Plan,
    ) -> Result<Option<Text>, SiteFault>
        requires stands { Stands self.old (S.told site.old) }
        requires room { HasRoom most_turns self.old.journal }
        requires planned { Planned most_turns self.old.log session plan }
        ensures answers { WorkAnswers session self.old self.new (tells (S.told site.old) (S.book site.old)) (tells (S.told site.new) (S.book site.new)) result }
        ensures stands { OnOk result (Stands self.new (S.told site.new)) }
        ensures setup { self.new.log.setup ≡ self.old.log.setup }
        ensures grows { Grows session self.old self.new }
        ensures beside { S.beside site.old site.new }
        ensures cause { HasCause (S.faults site.old) (S.faults site.new) result }
    {
        let mut plan = plan;
        for _turn in 0..MOST_TURNS {
            match self.turn(site, session, &mut plan) {
                Ok(Turn::Stored) => {}
                Ok(Turn::Said(text)) => return Ok(Some(text)),
                Ok(Turn::Rested) => return Ok(None),
                Err(fault) => return Err(fault),
            }
        }
        Ok(None)
    }

    /// One turn: a record that is due, or an operation and the record after its answer.
    fn turn<S: Site>(
        &mut self,
        site: &mut S,
        session: SessionId,
        plan: &mut Plan,
    ) -> Result<Turn, SiteFault>
        requires stands { Stands self.old (S.told site.old) }
        requires room { HasRoom 1 self.old.journal }
        requires planned { Planned 1 self.old.log session plan.old }
        ensures answers { TurnAnswers session self.old self.new (tells (S.told site.old) (S.book site.old)) (tells (S.told site.new) (S.book site.new)) result }
        ensures plan { result ≡ Ok Turn.Stored → plan.new ≡ plan.old }
        ensures stands { OnOk result (Stands self.new (S.told site.new)) }
        ensures room { OnOk result (TakesRoom self.old.journal self.new.journal) }
        ensures setup { self.new.log.setup ≡ self.old.log.setup }
        ensures grows { Grows session self.old self.new }
        ensures beside { S.beside site.old site.new }
        ensures cause { HasCause (S.faults site.old) (S.faults site.new) result }
    {
        let view = self.view(session);
        match next(&view) {
            Next::Append(rec) => self.append(site, session, rec, view.way, plan),
            Next::Act(op) => self.operate(site, session, op, &view, plan),
            Next::Wait | Next::Ended => Ok(Turn::Rested),
        }
    }

    /// Stores a record that is due, with its message if it has one.
    fn append<S: Site>(
        &mut self,
        site: &mut S,
        session: SessionId,
        rec: Rec,
        way: Option<Way>,
        plan: &mut Plan,
    ) -> Result<Turn, SiteFault>
        requires stands { Stands self.old (S.told site.old) }
        requires room { HasRoom 1 self.old.journal }
        requires planned { PlannedDue self.old.log session plan.old way rec }
        ensures answers { TurnAnswers session self.old self.new (tells (S.told site.old) (S.book site.old)) (tells (S.told site.new) (S.book site.new)) result }
        ensures plan { result ≡ Ok Turn.Stored → plan.new ≡ plan.old }
        ensures stands { OnOk result (Stands self.new (S.told site.new)) }
        ensures room { OnOk result (TakesRoom self.old.journal self.new.journal) }
        ensures setup { self.new.log.setup ≡ self.old.log.setup }
        ensures grows { Grows session self.old self.new }
        ensures beside { S.beside site.old site.new }
        ensures cause { HasCause (S.faults site.old) (S.faults site.new) result }
    {
        match rec {
            Rec::Made(kind) => self.make(site, session, kind, way, plan),
            _ => self.append_note(site, session, rec, plan),
        }
    }

    /// What the records say of a session that they name.
    fn view(&self, session: SessionId) -> View
        requires { (state : State) × HasState self.now.log session state }
        ensures { (state : State) → HasState self.now.log session state → result ≡ state.view }
    {
        match self.log.find(session) {
            Some(state) => *state.view(),
            None => unreachable!(),
        }
    }

    /// Stores a message that is due.
    fn make<S: Site>(
        &mut self,
        site: &mut S,
        session: SessionId,
        kind: Kind,
        way: Option<Way>,
        plan: &mut Plan,
    ) -> Result<Turn, SiteFault>
        requires stands { Stands self.old (S.told site.old) }
        requires room { HasRoom 1 self.old.journal }
        requires planned { PlannedMaking self.old.log session plan.old way kind }
        ensures answers { TurnAnswers session self.old self.new (tells (S.told site.old) (S.book site.old)) (tells (S.told site.new) (S.book site.new)) result }
        ensures said { IfOk result (λ turn. turn ≡ Turn.Stored → ⊥) }
        ensures stands { OnOk result (Stands self.new (S.told site.new)) }
        ensures room { OnOk result (TakesRoom self.old.journal self.new.journal) }
        ensures setup { self.new.log.setup ≡ self.old.log.setup }
        ensures grows { Grows session self.old self.new }
        ensures beside { S.beside site.old site.new }
        ensures cause { HasCause (S.faults site.old) (S.faults site.new) result }
    {
        let Some(making) = plan.take(made_part(way, kind)) else {
            unreachable!();
        };
        let Making {
            signed,
            payload,
            reply,
            ..
        } = making;
        match self.store(site, session, Rec::Made(kind), Some(signed), &payload) {
            Ok(()) => Ok(Turn::Said(reply)),
            Err(fault) => Err(fault),
        }
    }

    /// Stores a record that is due and has no message.
    fn append_note<S: Site>(
        &mut self,
        site: &mut S,
        session: SessionId,
        rec: Rec,
        plan: &Plan,
    ) -> Result<Turn, SiteFault>
        requires stands { Stands self.old (S.told site.old) }
        requires room { HasRoom 1 self.old.journal }
        requires planned { PlannedNote self.old.log session plan.now rec }
        requires due { (state : State) → HasState self.old.log session state → next_of state.view.role state.view ≡ Next.Append rec }
        ensures answers { TurnAnswers session self.old self.new (tells (S.told site.old) (S.book site.old)) (tells (S.told site.new) (S.book site.new)) result }
        ensures stands { OnOk result (Stands self.new (S.told site.new)) }
        ensures room { OnOk result (TakesRoom self.old.journal self.new.journal) }
        ensures setup { self.new.log.setup ≡ self.old.log.setup }
        ensures grows { Grows session self.old self.new }
        ensures beside { S.beside site.old site.new }
        ensures cause { HasCause (S.faults site.old) (S.faults site.new) result }
    {
        match self.note(site, session, rec, plan) {
            Ok(()) => Ok(Turn::Stored),
            Err(fault) => Err(fault),
        }
    }

    /// Asks the ledger for an operation that is due, and stores the record after its answer.
    fn operate<S: Site>(
        &mut self,
        site: &mut S,
        session: SessionId,
        op: LedgerOp,
        view: &View,
        plan: &Plan,
    ) -> Result<Turn, SiteFault>
        requires stands { Stands self.old (S.told site.old) }
        requires room { HasRoom 1 self.old.journal }
        requires planned { PlannedAnswers self.old.log session plan.now op view.now }
        ensures answers { TurnAnswers session self.old self.new (tells (S.told site.old) (S.book site.old)) (tells (S.told site.new) (S.book site.new)) result }
        ensures stands { OnOk result (Stands self.new (S.told site.new)) }
        ensures room { OnOk result (TakesRoom self.old.journal self.new.journal) }
        ensures setup { self.new.log.setup ≡ self.old.log.setup }
        ensures grows { Grows session self.old self.new }
        ensures beside { S.beside site.old site.new }
        ensures cause { HasCause (S.faults site.old) (S.faults site.new) result }
    {
        match site.act(op, session, &view.terms) {
            Ok(answer) => match self.note(site, session, after(view, op, &answer), plan) {
                Ok(()) => Ok(Turn::Stored),
                Err(fault) => Err(fault),
            },
            Err(_) => Err(SiteFault),
        }
    }

    /// Stores a record without a message, from its payload in the plan.
    fn note<S: Site>(
        &mut self,
        site: &mut S,
        session: SessionId,
        rec: Rec,
        plan: &Plan,
    ) -> Result<(), SiteFault>
        requires stands { Stands self.old (S.told site.old) }
        requires room { HasRoom 1 self.old.journal }
        requires planned { PlannedNote self.old.log session plan.now rec }
        ensures makes { OnOk result (Makes (Appends (stored session rec []) ∷ []) self.old.journal.held (tells (S.told site.old) (S.book site.old)) self.new.journal.held (tells (S.told site.new) (S.book site.new))) }
        ensures fails { OnErr result (Fails (Appends (stored session rec []) ∷ []) self.old.journal.held (tells (S.told site.old) (S.book site.old)) (tells (S.told site.new) (S.book site.new))) }
        ensures state { OnOk result ((state : State) → HasState self.old.log session state → HasState self.new.log session (state_with state rec None)) }
        ensures stands { OnOk result (Stands self.new (S.told site.new)) }
        ensures room { OnOk result (TakesRoom self.old.journal self.new.journal) }
        ensures setup { self.new.log.setup ≡ self.old.log.setup }
        ensures grows { Grows session self.old self.new }
        ensures beside { S.beside site.old site.new }
        ensures cause { HasCause (S.faults site.old) (S.faults site.new) result }
    {
        match plan.note(&rec) {
            Some(payload) => self.store(site, session, rec, None, payload),
            None => unreachable!(),
        }
    }
}

/// The record after the ledger's answer to an operation that was due.
fn after(view: &View, op: LedgerOp, answer: &Answer) -> Rec
    requires due { next_of view.now.role view.now ≡ Next.Act op }
    requires given { MayAnswer op answer.now }
    ensures { result ≡ after_of op answer.now }
{
    match view.role {
        Role::Origin => satp_origin::after(view, op, answer),
        Role::Recipient => satp_recipient::after(view, op, answer),
    }
}
