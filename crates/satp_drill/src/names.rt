// The names of both sides.
ghost use Rattle.std.specs.Prelude.{◌≡◌, true};
ghost use Rattle.satp_base.specs.Names.{is_name};
ghost use Rattle.satp_base.specs.Values.{name_text};
ghost use Rattle.satp_base.specs.Founding.{equal_names};
ghost use Rattle.satp_drill_runs.specs.Reports.{alpha, beta, gold, name_of, origin_of};

use satp_base::{Name, SessionId};
use satp_schedule::Side;

/// A name of these bytes.
pub(crate) fn name(text: &[u8]) -> Name
    requires { is_name text.now ≡ true }
    ensures { name_text result ≡ text.now }
{
    let Ok(name) = Name::read(text) else {
        unreachable!()
    };
    name
}

/// The name of side A's gateway.
pub(crate) fn alpha() -> Name
    ensures { result ≡ alpha }
{
    name(b"alpha")
}

/// The name of side B's gateway.
pub(crate) fn beta() -> Name
    ensures { result ≡ beta }
{
    name(b"beta")
}

/// The asset whose free amounts are summed.
pub(crate) fn gold() -> Name
    ensures { result ≡ gold }
{
    name(b"gold")
}

/// The name of a side's gateway.
pub(crate) fn name_of(side: Side) -> Name
    ensures { result ≡ name_of side }
{
    match side {
        Side::A => alpha(),
        Side::B => beta(),
    }
}

/// The side whose gateway starts a session.
pub(crate) fn origin_of(session: SessionId) -> Side
    ensures { result ≡ origin_of session }
{
    if are_equal(session.gateway, alpha()) {
        Side::A
    } else {
        Side::B
    }
}

/// Two names are one.
fn are_equal(a: Name, b: Name) -> bool
    ensures { result ≡ equal_names a b }
{
    b == a
}
