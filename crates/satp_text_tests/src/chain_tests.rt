ghost use Rattle.std.specs.Prelude.{◌≡◌, ◌∷◌, ◌++◌, [], IsTrue};
ghost use Rattle.satp_base.specs.Forms.{IsBody, IsPart, is_plain};
ghost use Rattle.satp_base.specs.Tales.{IsTale};
ghost use Rattle.satp_chain.specs.Chained.{tale_of};
ghost use Rattle.satp_chain.specs.Verdicts.{IsChainBody};

use satp_base::{
    Amount, Body, Kind, Link, Message, Name, Part, Reason, Role, SessionId, Tale, Terms, Text,
};
use satp_canon::link_of;
use satp_chain::{Chain, Signed, Verdict};
use satp_jws::Key;
use std::alloc::Global;

const ALPHA: &[u8] = b"alpha";

const BETA: &[u8] = b"beta";

/// A chain that is tested, and its session.
#[derive(Drop)]
struct ChainUnderTest {
    session: SessionId,
    chain: Chain,
    ghost same: { chain.session ≡ session },
}

impl ChainUnderTest {
    fn new(alloc: Global) -> Option<ChainUnderTest> {
        let gateway = Name::read(ALPHA).ok()?;
        let recipient = Name::read(BETA).ok()?;
        let session = SessionId { gateway, number: 1 };
        let chain = Chain::new(alloc, session, recipient).ok()?;
        Some(ChainUnderTest { session, chain })
    }

    /// What the chain says of a message; nothing where `check` takes none such.
    fn says(&self, signed: &Signed) -> Option<Verdict> {
        if signed.message.session == self.session && is_formed(&signed.message.body) {
            Some(self.chain.check(signed))
        } else {
            None
        }
    }

    /// Adds the next message, with this part. Whether it was the next one.
    fn grow(&mut self, alloc: Global, key: &Key, part: Part) -> bool {
        if !is_part(&part) || !self.chain.tale().extends(part.kind()) {
            return false;
        }
        match self.chain.compose(alloc, key, part) {
            Ok(signed) => {
                let is_next = self.chain.check(&signed) == Verdict::Next;
                self.chain.push(signed);
                is_next
            }
            Err(_) => false,
        }
    }
}

fn is_formed(body: &Body) -> bool
    ensures { IsTrue result → IsChainBody body.now × IsBody body.now }
{
    match body {
        Body::Chain { place, part, .. } => {
            let place = *place;
            1 <= place && place <= 11 && is_part(part)
        }
        _ => false,
    }
}

fn is_part(part: &Part) -> bool
    ensures { IsTrue result → IsPart part.now }
{
    match part {
        Part::Plain(kind) => is_plain(*kind),
        _ => true,
    }
}

fn is_plain(kind: Kind) -> bool
    ensures { result ≡ is_plain kind }
{
    !matches!(
        kind,
        Kind::TransferProposal
            | Kind::Reject
            | Kind::Recover
            | Kind::RecoverUpdate
            | Kind::RecoverSuccess
    )
}

/// The side whose places these are, and the other one.
fn sides(place: u8) -> (&'static [u8], &'static [u8]) {
    if place % 2 == 1 {
        (ALPHA, BETA)
    } else {
        (BETA, ALPHA)
    }
}

/// A plain message, whose text is no other message's.
#[derive(Clone, Copy)]
struct Strange {
    sender: &'static [u8],
    place: u8,
    previous: Link,
    kind: Kind,
}

/// What the chain says of such a message.
fn says_of(alloc: Global, tested: &ChainUnderTest, strange: Strange) -> Option<Verdict> {
    let sender = Name::read(strange.sender).ok()?;
    let text = Text::copy(alloc, b"another text").ok()?;
    let body = Body::Chain {
        place: strange.place,
        previous: strange.previous,
        part: Part::Plain(strange.kind),
    };
    let message = Message {
        session: tested.session,
        sender,
        receiver: sender,
        body,
    };
    tested.says(&Signed { message, text })
}

/// The link of the text at a place, zeros where none stands there.
fn link(tested: &ChainUnderTest, place: u8) -> Link {
    match tested.chain.entry(place) {
        Some(signed) => link_of(signed.text.bytes()),
        None => Link([0; 32]),
    }
}

/// Of a place that the chain has: its own text, another one, and one of the other side.
fn says_of_kept(alloc: Global, tested: &ChainUnderTest, place: u8) -> Option<[Option<Verdict>; 3]> {
    let (maker, taker) = sides(place);
    let kept = tested.chain.entry(place)?;
    let strange = Strange {
        sender: maker,
        place,
        previous: link(tested, place),
        kind: Kind::LockAssert,
    };
    let other_side = Strange {
        sender: taker,
        ..strange
    };
    Some([
        tested.says(kept),
        says_of(alloc, tested, strange),
        says_of(alloc, tested, other_side),
    ])
}

/// A whole chain looks at its last two texts alone.
fn is_kept_as_wanted(alloc: Global, tested: &ChainUnderTest, place: u8, is_whole: bool) -> bool {
    let length = tested.chain.head().length;
    let again = Some(Verdict::Again { place });
    let other = if is_whole && place < length.saturating_sub(1) {
        again
    } else {
        let kept = link(tested, place);
        Some(Verdict::Other { place, kept })
    };
    let wanted = [again, other, Some(Verdict::WrongSender)];
    says_of_kept(alloc, tested, place) == Some(wanted)
}

/// Of a place that the chain doesn't have: a kind that never stands there, a foreign link, and the other side.
fn says_of_new(
    alloc: Global,
    tested: &ChainUnderTest,
    place: u8,
    last: Link,
) -> [Option<Verdict>; 3] {
    let (maker, taker) = sides(place);
    let off_tale = Strange {
        sender: maker,
        place,
        previous: last,
        kind: if place == 2 {
            Kind::TransferComplete
        } else {
            Kind::ProposalReceipt
        },
    };
    let foreign = Strange {
        previous: Link([9; 32]),
        ..off_tale
    };
    let other_side = Strange {
        sender: taker,
        ..foreign
    };
    [
        says_of(alloc, tested, off_tale),
        says_of(alloc, tested, foreign),
        says_of(alloc, tested, other_side),
    ]
}

fn is_new_as_wanted(alloc: Global, tested: &ChainUnderTest, place: u8) -> bool {
    let length = tested.chain.head().length;
    let kept = link(tested, length);
    let gap = Verdict::Gap { length };
    let (off_tale, foreign) = if place == length.saturating_add(1) {
        (Verdict::OffTale { place }, Verdict::WrongPrevious { kept })
    } else {
        (gap, gap)
    };
    let wanted = [Some(off_tale), Some(foreign), Some(Verdict::WrongSender)];
    says_of_new(alloc, tested, place, kept) == wanted
}

/// The first place of which the chain says something else.
fn first_other_place(alloc: Global, tested: &ChainUnderTest, is_whole: bool) -> Option<u8> {
    let length = tested.chain.head().length;
    for place in 1..=11 {
        let is_as_wanted = if place <= length {
            is_kept_as_wanted(alloc, tested, place, is_whole)
        } else {
            is_new_as_wanted(alloc, tested, place)
        };
        if !is_as_wanted {
            return Some(place);
        }
    }
    None
}

fn terms() -> Option<Terms> {
    let alpha = Name::read(ALPHA).ok()?;
    let beta = Name::read(BETA).ok()?;
    Some(Terms {
        amount: Amount::from(250)?,
        asset: Name::read(b"gold").ok()?,
        beneficiary: beta,
        originator: alpha,
    })
}

/// Adds the proposal.
fn propose(alloc: Global, tested: &mut ChainUnderTest, key: &Key) -> bool {
    match terms() {
        Some(terms) => tested.grow(alloc, key, Part::Proposal(terms)),
        None => false,
    }
}

/// A transfer on its way, one that is rejected, and one that is rolled back: the kinds after the proposal.
const FORMS: [&[Kind]; 3] = [
    &[
        Kind::ProposalReceipt,
        Kind::TransferCommence,
        Kind::CommenceAck,
        Kind::LockAssert,
        Kind::LockReceipt,
        Kind::CommitPrepare,
        Kind::CommitReady,
        Kind::CommitFinal,
        Kind::CommitFinalAck,
        Kind::TransferComplete,
    ],
    &[Kind::Reject, Kind::Rollback, Kind::RollbackAck],
    &[
        Kind::ProposalReceipt,
        Kind::TransferCommence,
        Kind::CommenceAck,
        Kind::LockAssert,
        Kind::LockReceipt,
        Kind::Rollback,
        Kind::RollbackAck,
    ],
];

fn part_of(kind: Kind) -> Part {
    if kind == Kind::Reject {
        Part::Reject(Reason::MintCapped)
    } else {
        Part::Plain(kind)
    }
}

/// Whose place is next, so many messages after the proposal.
fn turn(messages: usize) -> Role {
    if messages % 2 == 0 {
        Role::Recipient
    } else {
        Role::Origin
    }
}

/// How many of the kinds come before the first after which the chain says something else of a place.
fn count_told(alloc: Global, tested: &mut ChainUnderTest, key: &Key, kinds: &[Kind]) -> usize {
    for (index, kind) in kinds.iter().enumerate() {
        let is_whole = index == kinds.len().saturating_sub(1);
        if tested.chain.turn() != Some(turn(index))
            || !tested.grow(alloc, key, part_of(*kind))
            || first_other_place(alloc, tested, is_whole).is_some()
        {
            return index;
        }
    }
    kinds.len()
}

/// How long the chain of a form becomes, told at every length.
fn told(alloc: Global, tested: &mut ChainUnderTest, key: &Key, kinds: &[Kind]) -> Option<usize> {
    if !propose(alloc, tested, key) || first_other_place(alloc, tested, false).is_some() {
        return None;
    }
    let count = count_told(alloc, tested, key, kinds);
    let length = tested.chain.head().length;
    let is_over = tested.chain.turn().is_none();
    let is_last = tested.chain.entry(length.saturating_add(1)).is_none();
    (count == kinds.len() && is_over && is_last).then_some(length as usize)
}

fn length_of(alloc: Global, kinds: &[Kind]) -> Option<usize> {
    match (ChainUnderTest::new(alloc), Key::new(&[7; 32])) {
        (Some(mut tested), Ok(key)) => told(alloc, &mut tested, &key, kinds),
        _ => None,
    }
}

#[test]
fn each_verdict_at_each_place_of_each_form(rt: HostRuntime) {
    let alloc = rt.alloc();
    let [whole, rejected, rolled_back] = FORMS;
    let lengths = [
        length_of(alloc, whole),
        length_of(alloc, rejected),
        length_of(alloc, rolled_back),
    ];
    assert_eq!(rt; lengths, [Some(11), Some(4), Some(8)]);
}

/// Whether the text behind a receipt is the same, composed before the receipt is pushed and after.
fn composes_on(alloc: Global, chain: &mut Chain, key: &Key) -> bool {
    let commence = Part::Plain(Kind::TransferCommence);
    if !chain.tale().extends(Kind::ProposalReceipt)
        || !tale_with(chain, Kind::ProposalReceipt).extends(Kind::TransferCommence)
    {
        return false;
    }
    match chain.compose(alloc, key, Part::Plain(Kind::ProposalReceipt)) {
        Ok(taken) => match chain.compose_on(alloc, key, &taken, commence) {
            Ok(composed) => {
                chain.push(taken);
                match chain.compose(alloc, key, commence) {
                    Ok(next) => composed.text.bytes() == next.text.bytes(),
                    Err(_) => false,
                }
            }
            Err(_) => false,
        },
        Err(_) => false,
    }
}

fn composes_on_proposal(alloc: Global, key: &Key) -> bool {
    match ChainUnderTest::new(alloc) {
        Some(mut tested) => propose(alloc, &mut tested, key)
            && composes_on(alloc, &mut tested.chain, key),
        None => false,
    }
}

#[test]
fn composes_on_a_message_that_is_to_be_pushed(rt: HostRuntime) {
    let composes = match Key::new(&[7; 32]) {
        Ok(key) => composes_on_proposal(rt.alloc(), &key),
        Err(_) => false,
    };
    assert!(rt; composes);
}

/// The tale of a chain with one further kind.
fn tale_with(chain: &Chain, kind: Kind) -> Tale
    requires { IsTale (tale_of chain.now ++ kind ∷ []) }
    ensures { result ≡ tale_of chain.now ++ kind ∷ [] }
{
    let mut tale = *chain.tale();
    tale.push(kind);
    tale
}
