ghost use Rattle.std.specs.Prelude.{◌≡◌, IfErr, IfOk, Option};
ghost use Rattle.satp_base.specs.Verdicts.{IsOfSession};
ghost use Rattle.satp_base.specs.declared.message.Message.{Message as MessageOf};
ghost use Rattle.satp_base.specs.declared.verdict.Verdict.TheVariants as which;
ghost use Rattle.satp_sides.specs.Calls.{IsOwn, verdict_in};
ghost use Rattle.satp_decisions.specs.Tests.{DecidesMessage, IsHeld, IsOfTest, IsOfTestOrMemory, OverLog};
ghost use Rattle.satp_decisions.specs.Steps.{BeginsNext, TakesNext, proposed};

use crate::own::MOST_SESSIONS;
use satp_base::{Body, Memory, Part, Role, SessionId, Terms, Verdict};
use satp_chain::{Chain, Signed};
use satp_log::Log;
use satp_points::{Decision, First, Refused, Replying};
use std::alloc::Global;

/// A message of the chain, rightly addressed: the next one is taken, and one that the chain has already is answered once more.
///
/// `Chain` comes with the verdict where it is neither, else `Full` where a session would begin and 2,048 sessions were accepted.
pub fn on_chain(alloc: Global, log: &Log, heard: Signed) -> Result<Decision, Refused>
    requires own { IsOwn log.now.setup.key heard.text heard.message }
    requires holds { IsHeld log.now }
    requires of_chain { IsOfSession heard.message.session heard.message }
    ensures decides { (e : Option MessageOf) → DecidesMessage heard.message heard.text e log.now result }
    ensures only { IfErr result IsOfTestOrMemory }
{
    match verdict(alloc, log, &heard) {
        Ok(verdict) => judged(log, heard, verdict),
        Err(Memory) => Err(Refused::Memory),
    }
}

/// A message of the chain of which the chain says this.
fn judged(log: &Log, heard: Signed, verdict: Verdict) -> Result<Decision, Refused>
    requires own { IsOwn log.now.setup.key heard.text heard.message }
    requires holds { IsHeld log.now }
    requires of_chain { IsOfSession heard.message.session heard.message }
    requires judged { OverLog log.now (λ p xs. verdict ≡ verdict_in p xs heard.message.session heard.message heard.text) }
    ensures decides { (e : Option MessageOf) → DecidesMessage heard.message heard.text e log.now result }
    ensures only { IfErr result IsOfTest }
{
    match verdict {
        Verdict::Next => take(log, heard),
        Verdict::Again { place } => Ok(Decision::Works {
            session: heard.message.session,
            first: First::Nothing,
            replying: Replying::Again { place },
        }),
        verdict => Err(Refused::Chain { verdict }),
    }
}

/// What the session's chain says of the message. A session that no record names has an empty chain.
pub fn verdict(alloc: Global, log: &Log, signed: &Signed) -> Result<Verdict, Memory>
    requires holds { IsHeld log.now }
    requires of_chain { IsOfSession signed.now.message.session signed.now.message }
    ensures { OverLog log.now (λ p xs. IfOk result (λ v. v ≡ verdict_in p xs signed.now.message.session signed.now.message signed.now.text)) }
{
    match log.find(signed.message.session) {
        Some(state) => Ok(state.chain().check(signed)),
        None => {
            let chain = Chain::new(alloc, signed.message.session, log.setup().name)?;
            Ok(chain.check(signed))
        }
    }
}

/// Takes the next message of a session's chain, which the peer sent.
///
/// `Full` comes where a session would begin and 2,048 sessions were accepted.
pub fn take(log: &Log, signed: Signed) -> Result<Decision, Refused>
    requires holds { IsHeld log.now }
    requires own { IsOwn log.now.setup.key signed.text signed.message }
    requires next { OverLog log.now (λ p xs. verdict_in p xs signed.message.session signed.message signed.text ≡ which.Next) }
    ensures takes { TakesNext signed log.now result }
    ensures only { IfErr result IsOfTest }
{
    let session = signed.message.session;
    match log.find(session) {
        Some(_) => Ok(Decision::Works {
            session,
            first: First::Takes { signed },
            replying: Replying::LastOwn,
        }),
        None => match terms_of(&signed.message.body) {
            Some(terms) => begin(log, session, terms),
            None => unreachable!(),
        },
    }
}

/// A session of the peer begins.
fn begin(log: &Log, session: SessionId, terms: Terms) -> Result<Decision, Refused>
    ensures begins { BeginsNext session terms log.now result }
    ensures only { IfErr result IsOfTest }
{
    if log.accepted() >= MOST_SESSIONS {
        return Err(Refused::Full {
            count: MOST_SESSIONS,
        });
    }
    Ok(Decision::Works {
        session,
        first: First::Begins {
            role: Role::Recipient,
            terms,
        },
        replying: Replying::LastOwn,
    })
}

/// The terms of a proposal.
fn terms_of(body: &Body) -> Option<Terms>
    ensures { result ≡ proposed body.now }
{
    match body {
        Body::Chain {
            part: Part::Proposal(terms),
            ..
        } => Some(*terms),
        _ => None,
    }
}
