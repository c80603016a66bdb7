// A drive over an open connection: one text after the other.
ghost use Rattle.std.specs.Prelude.{◌≡◌, ◌≤◌, ◌+◌, true, false, [], ◌∷◌};
ghost use Rattle.satp_base.specs.Values.{address_text};
ghost use Rattle.satp_http.specs.Feeds.{no_answers};
ghost use Rattle.satp_points.specs.States.{GateWithin, is_broken};
ghost use Rattle.satp_drive.specs.Calling.{standing};
ghost use Rattle.satp_drive.specs.Conversing.{Converses, unanswered};
ghost use Rattle.satp_drive.specs.Drives.{EndCounts, texts_in};
ghost use Rattle.satp_drive.specs.Driving.{IsNamed};
ghost use Rattle.satp_drive.specs.declared.driven.DriveEnd.TheVariants.{Site as SiteEnd, Wire as WireEnd};
ghost use Rattle.satp_drive.specs.declared.turn.Turn.TheVariants.{Posts};

use crate::driven::{DriveEnd, Driven};
use crate::turn::{Turn, after_answer};
use satp_base::{Address, SessionId, Site, Text, Wire};
use satp_gateway::Gateway;
use satp_http::{Answered, Responses};
use satp_post::{PostFault, post};
use std::alloc::Global;

/// The most texts that a drive posts.
const MOST_POSTS: u32 = 16;

/// Which session a drive is of, and where it posts.
#[derive(Clone, Copy)]
pub(crate) struct Course {
    pub session: SessionId,
    pub at: Address,
}

/// How many texts passed with an answer: the one that it answers, and its own, if it brings one.
fn exchanged(answered: &Answered) -> u32
    ensures is { result ≡ 1 + texts_in (answered.now ∷ []) }
    ensures most { result ≤ 2 }
{
    if answered.code == 200 {
        return 2;
    }
    1
}

/// The end of a drive whose last text has no answer, of which so many messages passed before.
fn unanswered(fault: PostFault, messages: u32) -> Driven
    requires { messages ≤ 30 }
    ensures { result ≡ unanswered fault messages }
{
    match fault {
        PostFault::Wire { said } => Driven {
            end: DriveEnd::Wire,
            messages: messages + u32::from(said),
        },
        PostFault::Early => Driven {
            end: DriveEnd::Early,
            messages: messages + 1,
        },
        PostFault::NotHttp { fault } => Driven {
            end: DriveEnd::NotHttp { fault },
            messages: messages + 1,
        },
        PostFault::Memory { said } => Driven {
            end: DriveEnd::Memory,
            messages: messages + u32::from(said),
        },
    }
}

/// Posts a text, and then one after each answer.
pub(crate) fn talk<S: Site, W: Wire>(
    alloc: Global,
    gateway: &mut Gateway,
    site: &mut S,
    wire: &mut W,
    responses: &mut Responses,
    course: Course,
    mut owed: bool,
    mut text: Text,
) -> Driven
    requires open { W.is_open wire.old ≡ true }
    requires unheard { responses.old ≡ no_answers }
    requires whole { is_broken gateway.old ≡ false }
    requires within { GateWithin gateway.old (S.told site.old) }
    ensures converses { Converses (address_text course.at) course.session (Posts text owed) (standing gateway.old (S.told site.old) (S.book site.old) (S.faults site.old)) (standing gateway.new (S.told site.new) (S.book site.new) (S.faults site.new)) (W.told wire.old) (W.told wire.new) (W.faults wire.old) (W.faults wire.new) result }
    ensures within { is_broken gateway.new ≡ false → GateWithin gateway.new (S.told site.new) }
    ensures listens { W.listens wire.new ≡ W.listens wire.old }
    ensures site_beside { S.beside site.old site.new }
    ensures wire_beside { W.beside wire.old wire.new }
    ensures site_counts { EndCounts SiteEnd (S.faults site.old) (S.faults site.new) result.end }
    ensures wire_counts { EndCounts WireEnd (W.faults wire.old) (W.faults wire.new) result.end }
    ensures named { IsNamed result.end }
{
    let mut posted = 0;
    let mut messages = 0;
    while posted < MOST_POSTS {
        let answered = match post(alloc, wire, responses, &course.at, text.bytes()) {
            Ok(answered) => answered,
            Err(fault) => return unanswered(fault, messages),
        };
        posted += 1;
        messages += exchanged(&answered);
        match after_answer(alloc, gateway, site, course.session, owed, &answered) {
            Turn::Posts {
                text: next,
                owed: still,
            } => {
                text = next;
                owed = still;
            }
            Turn::Ends { end } => return Driven { end, messages },
        }
    }
    Driven {
        end: DriveEnd::Turns,
        messages,
    }
}
