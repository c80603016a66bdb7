ghost use Rattle.std.specs.Prelude.{◌≡◌, ◌≢◌, ◌∷◌, ◌++◌, true, ℕ, List, decimal, MatchOption};
ghost use Rattle.satp_base.specs.Values.{session_text};
ghost use Rattle.satp_base.specs.declared.session.SessionId.{SessionId};
ghost use Rattle.satp_schedule.specs.Lines.{has_form, is_count, line_text, side_text};
ghost use Rattle.satp_schedule.specs.Verbs.{Begins, BeginsNone};
ghost use Rattle.satp_schedule.specs.Transfers.{transfer_fields};
ghost use Rattle.satp_schedule.specs.declared.line.Line.{Line};
ghost use Rattle.satp_schedule.specs.declared.line.Side.{Side};
ghost use Rattle.satp_schedule.specs.declared.parse.Transfer.{Transfer};
ghost use Rattle.satp_schedule.specs.declared.verb.Verb.TheVariants.{Start, Stop};

use crate::fields::Fields;
use crate::line::{Line, Side};
use crate::verb::Verb;
use satp_base::{Amount, Name, SessionId};

/// Reads a line, without its line feed.
pub(crate) fn parse_line(text: &[u8]) -> Option<Line>
    ensures { MatchOption result
        ((line : Line) → has_form line ≡ true → text.now ≢ line_text line)
        (λ line. (has_form line ≡ true) × (text.now ≡ line_text line)) }
{
    let mut fields = Fields::new(text);
    let verb = fields.verb()?;
    let line = parse_behind(verb, &mut fields)?;
    if fields.is_empty() { Some(line) } else { None }
}

/// Reads what stands behind the first field.
fn parse_behind(verb: Verb, fields: &mut Fields) -> Option<Line>
    ensures { MatchOption result
        (BeginsNone verb fields.old)
        (λ line. Begins verb fields.old line fields.new) }
{
    match verb {
        Verb::Start => parse_start(fields),
        Verb::Resume => {
            let (side, session) = side_and_session(fields)?;
            Some(Line::Resume { side, session })
        }
        Verb::Recover => {
            let (side, session) = side_and_session(fields)?;
            Some(Line::Recover { side, session })
        }
        Verb::Abort => {
            let (side, session) = side_and_session(fields)?;
            Some(Line::Abort { side, session })
        }
        Verb::Deliver => {
            let (side, n) = side_and_count(fields)?;
            Some(Line::Deliver { side, n })
        }
        Verb::Stop => parse_stop(fields),
        Verb::Fail => {
            let (side, call) = side_and_count(fields)?;
            Some(Line::Fail { side, call })
        }
        Verb::Lose => {
            let n = fields.count()?;
            Some(Line::Lose { n })
        }
        Verb::Twice => {
            let n = fields.count()?;
            Some(Line::Twice { n })
        }
    }
}

fn side_and_session(fields: &mut Fields) -> Option<(Side, SessionId)>
    ensures { MatchOption result
        ((side : Side) (session : SessionId) (left : List (List ℕ)) → fields.old ≢ side_text side ∷ session_text session ∷ left)
        (λ p. fields.old ≡ side_text p.0 ∷ session_text p.1 ∷ fields.new) }
{
    let side = fields.side()?;
    let session = fields.session()?;
    Some((side, session))
}

fn side_and_count(fields: &mut Fields) -> Option<(Side, u32)>
    ensures { MatchOption result
        ((side : Side) (n : ℕ) (left : List (List ℕ)) → is_count n ≡ true → fields.old ≢ side_text side ∷ decimal n ∷ left)
        (λ p. (is_count p.1 ≡ true) × (fields.old ≡ side_text p.0 ∷ decimal p.1 ∷ fields.new)) }
{
    let side = fields.side()?;
    let n = fields.count()?;
    Some((side, n))
}

fn parse_stop(fields: &mut Fields) -> Option<Line>
    ensures { MatchOption result
        (BeginsNone Stop fields.old)
        (λ line. Begins Stop fields.old line fields.new) }
{
    let (side, event) = side_and_count(fields)?;
    let pick = fields.pick()?;
    Some(Line::Stop { side, event, pick })
}

/// What a transfer is about.
#[derive(Clone, Copy)]
struct Transfer {
    asset: Name,
    amount: Amount,
    originator: Name,
    beneficiary: Name,
}

fn parse_transfer(fields: &mut Fields) -> Option<Transfer>
    ensures { MatchOption result
        ((transfer : Transfer) (left : List (List ℕ)) → fields.old ≢ transfer_fields transfer ++ left)
        (λ transfer. fields.old ≡ transfer_fields transfer ++ fields.new) }
{
    Some(Transfer {
        asset: fields.name()?,
        amount: fields.amount()?,
        originator: fields.name()?,
        beneficiary: fields.name()?,
    })
}

fn parse_start(fields: &mut Fields) -> Option<Line>
    ensures { MatchOption result
        (BeginsNone Start fields.old)
        (λ line. Begins Start fields.old line fields.new) }
{
    let (side, number) = side_and_count(fields)?;
    let transfer = parse_transfer(fields)?;
    Some(Line::Start {
        side,
        number,
        asset: transfer.asset,
        amount: transfer.amount,
        originator: transfer.originator,
        beneficiary: transfer.beneficiary,
    })
}
