// The sessions of a report are counted.
ghost use Rattle.std.specs.Prelude.{◌≡◌, List, length, filter};
ghost use Rattle.satp_base.specs.Founding.{counted};
ghost use Rattle.satp_base.specs.Tales.{is_committed, is_rolled_back};
ghost use Rattle.satp_drill.specs.Counting.{has_ended, is_ended};
ghost use Rattle.satp_points.specs.States.{Holds};
ghost use Rattle.satp_records.specs.declared.stored.Setup.{Setup};
ghost use Rattle.satp_sides.specs.Points.{Stored};

use crate::named::Named;
use crate::names::origin_of;
use satp_base::{Kind, SessionId, Tale, View};
use satp_gateway::Gateway;
use satp_schedule::Side;

/// What a session has come to.
#[derive(Clone, Copy, Debug, PartialEq, Eq)]
pub enum Ended {
    Committed,
    RolledBack,
    NotBegun,
}

/// How many of these sessions have come to this, by the records of both sides.
pub(crate) fn count(named: &Named, how: Ended, a: &Gateway, b: &Gateway) -> u32
    ensures { (setup_a setup_b : Setup) (xs ys : List Stored) → Holds a.now setup_a xs → Holds b.now setup_b ys → result ≡ length (filter (has_ended how xs ys) named.now) }
{
    let mut count = 0;
    for index in 0..named.count() {
        let Some(session) = named.get(index) else {
            unreachable!()
        };
        count += one_if(has_ended(how, session, a, b));
    }
    count
}

fn one_if(test: bool) -> u32
    ensures { result ≡ counted test 1 }
{
    if test { 1 } else { 0 }
}

/// Whether a session has come to this.
fn has_ended(how: Ended, session: SessionId, a: &Gateway, b: &Gateway) -> bool
    ensures { (setup_a setup_b : Setup) (xs ys : List Stored) → Holds a.now setup_a xs → Holds b.now setup_b ys → result ≡ has_ended how xs ys session }
{
    match origin_of(session) {
        Side::A => is_ended(how, a.show(session)),
        Side::B => is_ended(how, b.show(session)),
    }
}

/// Whether the session of a chain with these kinds is committed.
fn is_committed(tale: &Tale) -> bool
    ensures { result ≡ is_committed tale.now }
{
    matches!(tale.last(), Some(Kind::TransferComplete))
}

/// Whether it is rolled back.
fn is_rolled_back(tale: &Tale) -> bool
    ensures { result ≡ is_rolled_back tale.now }
{
    matches!(tale.last(), Some(Kind::RollbackAck))
}

/// Whether a session of which the records say this has come to that.
fn is_ended(how: Ended, view: Option<View>) -> bool
    ensures { result ≡ is_ended how view }
{
    let Some(view) = view else {
        return matches!(how, Ended::NotBegun);
    };
    match how {
        Ended::Committed => is_committed(&view.tale),
        Ended::RolledBack => is_rolled_back(&view.tale),
        Ended::NotBegun => false,
    }
}
