// Both sides of a drill.

use crate::command::{Wrong, abort, deliver, drive};
use crate::exchange::{Errand, Pair};
use crate::founding::{OF_ACCOUNTS, OF_OUTPUTS, found, setup_a, setup_b};
use crate::pending::Pending;
use crate::place::Place;
use satp_accounts::Accounts;
use satp_base::{Memory, SessionId};
use satp_loop::Mail;
use satp_outputs::Outputs;
use satp_schedule::Side;
use std::alloc::Global;

/// Both sides, and what they have said to each other.
#[derive(Drop)]
pub(crate) struct Sides {
    pub(crate) a: Place<Accounts>,
    pub(crate) b: Place<Outputs>,
    pub(crate) mail: Mail,
}

/// Both gateways are set up.
pub(crate) fn found_both(alloc: Global) -> Result<Sides, Memory> {
    let setup_a = setup_a(alloc)?;
    let setup_b = setup_b(alloc)?;
    let a = found(alloc, &setup_a, OF_ACCOUNTS)?;
    let b = found(alloc, &setup_b, OF_OUTPUTS)?;
    Ok(Sides {
        a,
        b,
        mail: Mail::new(alloc),
    })
}

/// A side drives.
pub(crate) fn drive_by(
    alloc: Global,
    sides: Sides,
    side: Side,
    errand: Errand,
    pending: Pending,
) -> Result<Sides, Memory> {
    match side {
        Side::A => drive_a(alloc, sides, errand, pending),
        Side::B => drive_b(alloc, sides, errand, pending),
    }
}

fn drive_a(alloc: Global, sides: Sides, errand: Errand, pending: Pending) -> Result<Sides, Memory> {
    let wrong = Wrong {
        own: pending.of_site(Side::A),
        peer: pending.of_site(Side::B),
        messages: pending.of_messages(),
    };
    let pair = Pair {
        own: sides.a,
        peer: sides.b,
        mail: sides.mail,
    };
    let pair = drive(alloc, pair, errand, wrong)?;
    Ok(Sides {
        a: pair.own,
        b: pair.peer,
        mail: pair.mail,
    })
}

fn drive_b(alloc: Global, sides: Sides, errand: Errand, pending: Pending) -> Result<Sides, Memory> {
    let wrong = Wrong {
        own: pending.of_site(Side::B),
        peer: pending.of_site(Side::A),
        messages: pending.of_messages(),
    };
    let pair = Pair {
        own: sides.b,
        peer: sides.a,
        mail: sides.mail,
    };
    let pair = drive(alloc, pair, errand, wrong)?;
    Ok(Sides {
        a: pair.peer,
        b: pair.own,
        mail: pair.mail,
    })
}

/// A side aborts a session.
pub(crate) fn abort_by(
    alloc: Global,
    sides: Sides,
    side: Side,
    session: SessionId,
    pending: Pending,
) -> Result<Sides, Memory> {
    let trouble = pending.of_site(side);
    match side {
        Side::A => Ok(Sides {
            a: abort(alloc, sides.a, session, trouble)?,
            b: sides.b,
            mail: sides.mail,
        }),
        Side::B => Ok(Sides {
            a: sides.a,
            b: abort(alloc, sides.b, session, trouble)?,
            mail: sides.mail,
        }),
    }
}

/// A side is handed an old text.
pub(crate) fn deliver_to(
    alloc: Global,
    sides: Sides,
    side: Side,
    number: u32,
    pending: Pending,
) -> Result<Sides, Memory> {
    let trouble = pending.of_site(side);
    match side {
        Side::A => {
            let heard = deliver(alloc, sides.a, sides.mail, number, trouble)?;
            Ok(Sides {
                a: heard.place,
                b: sides.b,
                mail: heard.mail,
            })
        }
        Side::B => {
            let heard = deliver(alloc, sides.b, sides.mail, number, trouble)?;
            Ok(Sides {
                a: sides.a,
                b: heard.place,
                mail: heard.mail,
            })
        }
    }
}
