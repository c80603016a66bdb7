ghost use Rattle.std.specs.Prelude.{◌≡◌, ◌≢◌, ◌≤◌, IfErr, IfOk, List, OnErr, OnOk, Option};
ghost use Rattle.satp_base.specs.Streams.{HasCause, Rose};
ghost use Rattle.satp_log.specs.Folding.{State};
ghost use Rattle.satp_log.specs.Journals.{party_of};
ghost use Rattle.satp_records.specs.declared.stored.Setup.{Setup};
ghost use Rattle.satp_sides.specs.Points.{Stored};
ghost use Rattle.satp_points.specs.Deciding.{Done, IsWritten};
ghost use Rattle.satp_points.specs.Decisions.{IsReady, reply_by};
ghost use Rattle.satp_points.specs.States.{tells};
ghost use Rattle.satp_points.specs.declared.decision.Decision.TheVariants.{Works};
ghost use Rattle.satp_engine.specs.Carrying.{ExecuteAnswers, IsStanding, StandsAfter, held_after};
ghost use Rattle.satp_engine.specs.Preparing.{IsPlannedStart};
ghost use Rattle.satp_engine.specs.Working.{Grows, HasRoom, HasState, Keeps, KeepsSome, Stands, slot_of};

use crate::prepare::{Prepared, Provision};
use crate::records::Records;
use crate::reply::after_made;
use crate::start::Start;
use satp_base::{Memory, SessionId, Site, SiteFault, Text};
use satp_messages::{recover, update};
use satp_plan::Plan;
use satp_points::{First, Refused, Replying};
use std::alloc::Global;

impl Records {
    /// Stores a first record of a session, if there is one, does the due work, and gives the reply.
    ///
    /// `Site` comes where a call on the site failed. `Memory` comes before the first call on the site, or, where the reply
    /// is a message that is written after the due work, without that message.
    pub fn carry_out<S: Site>(
        &mut self,
        alloc: Global,
        site: &mut S,
        session: SessionId,
        first: First,
        replying: Replying,
    ) -> Result<Option<Text>, Refused>
        requires stands { Stands self.old (S.told site.old) }
        requires ready { (setup : Setup) (xs : List Stored) → Keeps self.old setup xs → IsReady (party_of setup) xs (Works session first replying) }
        ensures done { Done (Works session first replying) self.old.journal.held (held_after result self.new.journal.held) (tells (S.told site.old) (S.book site.old)) (tells (S.told site.new) (S.book site.new)) result }
        ensures stands { StandsAfter result self.new (S.told site.new) }
        ensures beside { S.beside site.old site.new }
        ensures later { S.faults site.old ≤ S.faults site.new }
        ensures cause { IfErr result (λ fault. fault ≡ Refused.Site → Rose (S.faults site.old) (S.faults site.new)) }
        ensures kept { OnOk result (S.faults site.new ≡ S.faults site.old) }
        ensures still { IfErr result (λ fault. fault ≢ Refused.Site → S.faults site.new ≡ S.faults site.old) }
    {
        let Ok(prepared) = self.prepare(alloc, session, first, replying) else {
            return Err(Refused::Memory);
        };
        let Prepared { start, provision } = prepared;
        let Provision { plan, standing } = provision;
        match self.execute(site, session, start, plan) {
            Ok(made) => match self.reply(alloc, session, replying, standing, made) {
                Ok(reply) => Ok(reply),
                Err(_) => Err(Refused::Memory),
            },
            Err(_) => Err(Refused::Site),
        }
    }

    /// Stores what a call stores first, and does the due work of its session. The text is that of the message that was
    /// made, if one was.
    ///
    /// A fault is that of a call on the site, or that an operation is out of order.
    fn execute<S: Site>(
        &mut self,
        site: &mut S,
        session: SessionId,
        start: Start,
        plan: Plan,
    ) -> Result<Option<Text>, SiteFault>
        requires stands { Stands self.old (S.told site.old) }
        requires room { HasRoom 4 self.old.journal }
        requires planned { IsPlannedStart self.old.log session start plan }
        ensures answers { ExecuteAnswers session start self.old self.new (tells (S.told site.old) (S.book site.old)) (tells (S.told site.new) (S.book site.new)) result }
        ensures stands { OnOk result (Stands self.new (S.told site.new)) }
        ensures setup { self.new.log.setup ≡ self.old.log.setup }
        ensures grows { Grows session self.old self.new }
        ensures beside { S.beside site.old site.new }
        ensures cause { HasCause (S.faults site.old) (S.faults site.new) result }
    {
        match self.store_start(site, session, start) {
            Ok(()) => self.work(site, session, plan),
            Err(fault) => Err(fault),
        }
    }

    /// The reply after the due work of a session: `standing` was it before, and `made` is the text of the message that
    /// was made, if one was. Memory is wanted for a message that is written alone.
    fn reply(
        &self,
        alloc: Global,
        session: SessionId,
        replying: Replying,
        standing: Option<Text>,
        made: Option<Text>,
    ) -> Result<Option<Text>, Memory>
        requires kept { KeepsSome self.now }
        requires stands { IsStanding self.now.log session replying standing made }
        ensures reply { IfOk result (λ reply. (last : State) → HasState self.now.log session last → reply ≡ reply_by (party_of self.now.log.setup) session replying (slot_of last)) }
        ensures written { OnErr result (IsWritten replying) }
    {
        match replying {
            Replying::Recover => {
                let chain = self.state(session).chain();
                let text = recover(alloc, &self.log, session, chain)?;
                Ok(Some(text))
            }
            Replying::Update { given } => {
                let chain = self.state(session).chain();
                let text = update(alloc, &self.log, session, chain, given)?;
                Ok(Some(text))
            }
            _ => Ok(self.text_reply(session, replying, standing, made)),
        }
    }

    /// The reply that is a text of the chain.
    fn text_reply(
        &self,
        session: SessionId,
        replying: Replying,
        standing: Option<Text>,
        made: Option<Text>,
    ) -> Option<Text>
        requires unwritten { IsWritten replying → ⊥ }
        requires stands { IsStanding self.now.log session replying standing made }
        ensures { (last : State) → HasState self.now.log session last → result ≡ reply_by (party_of self.now.log.setup) session replying (slot_of last) }
    {
        match made {
            Some(text) => after_made(replying, standing, text, &self.state(session).view().tale),
            None => standing,
        }
    }
}
