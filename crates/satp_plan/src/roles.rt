ghost use Rattle.std.specs.Prelude.{◌≡◌};
ghost use Rattle.satp_base.specs.Chains.{made_part, reason_of};
ghost use Rattle.satp_base.specs.Roles.{next_of};

use satp_base::{Cause, Kind, Next, Part, Reason, Role, View, Way};

/// What a side does next in a session.
pub fn next(view: &View) -> Next
    ensures { result ≡ next_of view.now.role view.now }
{
    match view.role {
        Role::Origin => satp_origin::next(view),
        Role::Recipient => satp_recipient::next(view),
    }
}

/// What a side that has decided so says by a message of a kind that is due.
pub fn made_part(way: Option<Way>, kind: Kind) -> Part
    ensures { result ≡ made_part way kind }
{
    match kind {
        Kind::Reject => Part::Reject(reason_of(way)),
        _ => Part::Plain(kind),
    }
}

/// The reason that a reject names.
fn reason_of(way: Option<Way>) -> Reason
    ensures { result ≡ reason_of way }
{
    match way {
        Some(Way::Back(Cause::UnknownAsset)) => Reason::UnknownAsset,
        Some(Way::Back(Cause::MintCapped)) => Reason::MintCapped,
        Some(Way::Back(Cause::LedgerTaken)) => Reason::LedgerTaken,
        _ => Reason::Aborted,
    }
}
