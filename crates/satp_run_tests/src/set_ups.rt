//! Set-ups of a gateway, and how each ends. No function here says what it does, so that the proofs of the tests carry no clause of `run`.

ghost use Rattle.std.specs.Prelude.{◌≡◌, false};

use satp_accounts::Accounts;
use satp_app::run;
use satp_base::{Area, Disk, Genesis, LedgerCore, LedgerKind, Memory, Name, Text, Texts};
use satp_gateway::{Gateway, SetUpFault};
use satp_memory::{MemSink, MemSite, MemSource, MemWire};
use satp_records::{Stored, decode};
use std::alloc::Global;

const GENESIS: &[u8] = b"asset gold 1000000\nhold gold ann 1000\n";

/// The journal of alpha after its set-up: an open gate, a length of 60, the record, and a closed gate.
pub const JOURNAL: &[u8] =
    b"\x01\x00\x3c\x00\x05alpha\x04beta\x0e127.0.0.1:7002\x20\x00\x01\x02\x03\x04\x05\x06\x07\x08\x09\x0a\x0b\x0c\x0d\x0e\x0f\x10\x11\x12\x13\x14\x15\x16\x17\x18\x19\x1a\x1b\x1c\x1d\x1e\x1f\x00";

/// An open gate without a whole record after it.
pub const CUT_RECORD: &[u8] = b"\x01\x00\x03ab";

/// A whole record, and an open gate alone.
pub const CUT_AT_SIX: &[u8] = b"\x01\x00\x03abc\x01";

/// The words of an `init` of alpha, up to the ledger's kind.
const INIT: [&str; 12] = [
    "init",
    "--dir",
    "d",
    "--name",
    "alpha",
    "--peer",
    "beta",
    "--at",
    "127.0.0.1:7002",
    "--key",
    "AAECAwQFBgcICQoLDA0ODxAREhMUFRYXGBkaGxwdHh8",
    "--ledger",
];

/// How a gateway is set up.
#[derive(Clone, Copy, Debug, PartialEq, Eq)]
pub enum Way {
    /// By the words of a command.
    Run,
    /// By [`Gateway::set_up`].
    SetUp,
}

/// What happens to a site.
#[derive(Clone, Copy)]
pub enum Trouble {
    Nothing,
    /// The call of this number fails.
    Failure(u64),
    /// It stops after so many events, and is started again with an image of this pick.
    Stop(u64, u32),
    /// These bytes stand in its journal.
    Journal(&'static [u8]),
}

/// How a set-up ends. Of a command it says the output and the line on standard error too.
#[derive(Clone, Copy, Debug, PartialEq, Eq)]
pub enum End {
    Ready,
    There,
    DamagedAt(u64),
    SiteFailed,
    /// Any other answer, or other lines.
    Other,
}

/// What stands in the journal.
#[derive(Clone, Copy, Debug, PartialEq, Eq)]
pub enum Held {
    ClosedGate,
    SetUp,
    CutRecord,
    CutAtSix,
    Other,
}

/// Two set-ups one after the other at a new site.
#[derive(Clone, Copy, Debug, PartialEq, Eq)]
pub struct Ended {
    pub first: End,
    /// What stands in the journal after the first, and what is free of ann's gold in the ledger.
    pub held: Held,
    pub free: Option<u64>,
    pub second: End,
}

/// A status, the output and the line on standard error.
const ENDS: [(u8, &[u8], &[u8], End); 5] = [
    (0, b"alpha ready\n", b"", End::Ready),
    (13, b"", b"satp: gateway is there\n", End::There),
    (9, b"", b"satp: journal damaged at 0\n", End::DamagedAt(0)),
    (9, b"", b"satp: journal damaged at 6\n", End::DamagedAt(6)),
    (8, b"", b"satp: site failed\n", End::SiteFailed),
];

fn end_of(status: u8, out: &[u8], err: &[u8]) -> End {
    for (of_status, of_out, of_err, end) in ENDS {
        if status == of_status && out == of_out && err == of_err {
            return end;
        }
    }
    End::Other
}

fn init_words(alloc: Global, kind: LedgerKind) -> Result<Texts, Memory> {
    let mut words = Texts::new(alloc);
    for word in INIT {
        push_word(alloc, &mut words, word)?;
    }
    let last = match kind {
        LedgerKind::Accounts => "accounts",
        LedgerKind::Outputs => "outputs",
    };
    push_word(alloc, &mut words, last)?;
    Ok(words)
}

pub fn push_word(alloc: Global, words: &mut Texts, word: &str) -> Result<(), Memory> {
    let text = Text::copy(alloc, word.as_bytes())?;
    match words.push(text) {
        Ok(()) => Ok(()),
        Err(_) => Err(Memory),
    }
}

fn run_init(alloc: Global, site: &mut MemSite<Accounts>, kind: LedgerKind) -> Result<End, Memory> {
    let words = init_words(alloc, kind)?;
    let mut wire = MemWire::new(alloc, b"")?;
    let mut input = MemSource::new(alloc, GENESIS)?;
    let mut out = MemSink::new(alloc)?;
    let mut err = MemSink::new(alloc)?;
    Ok(run_over(
        alloc, &words, site, &mut wire, &mut input, &mut out, &mut err,
    ))
}

fn run_over(
    alloc: Global,
    words: &Texts,
    site: &mut MemSite<Accounts>,
    wire: &mut MemWire,
    input: &mut MemSource,
    out: &mut MemSink,
    err: &mut MemSink,
) -> End
    requires closed { wire.old.is_open ≡ false }
    requires over { input.old.over ≡ false }
    requires out_failed { out.old.failed ≡ false }
    requires err_failed { err.old.failed ≡ false }
{
    let status = run(alloc, words, site, wire, input, out, err);
    end_of(status, out.bytes(), err.bytes())
}

fn set_up_alone(
    alloc: Global,
    site: &mut MemSite<Accounts>,
    kind: LedgerKind,
) -> Result<End, Memory> {
    let Ok(Stored::Setup(setup)) = decode(alloc, &JOURNAL[3..63]) else {
        return Err(Memory);
    };
    let Ok(genesis) = Genesis::read(alloc, GENESIS) else {
        return Err(Memory);
    };
    Ok(match Gateway::set_up(alloc, site, &setup, kind, &genesis) {
        Ok(()) => End::Ready,
        Err(SetUpFault::Already) => End::There,
        Err(SetUpFault::Damaged { at }) => End::DamagedAt(at),
        Err(SetUpFault::Site) => End::SiteFailed,
        Err(SetUpFault::Memory) => End::Other,
    })
}

fn set_up(
    alloc: Global,
    way: Way,
    site: &mut MemSite<Accounts>,
    kind: LedgerKind,
) -> Result<End, Memory> {
    match way {
        Way::Run => run_init(alloc, site, kind),
        Way::SetUp => set_up_alone(alloc, site, kind),
    }
}

fn prepare(site: &mut MemSite<Accounts>, trouble: Trouble) -> Result<(), Memory> {
    match trouble {
        Trouble::Nothing => Ok(()),
        Trouble::Failure(call) => site.fail(call),
        Trouble::Stop(event, pick) => {
            site.stop_at(event, pick);
            Ok(())
        }
        Trouble::Journal(bytes) => match site.write(Area::JournalA, 0, bytes) {
            Ok(()) => Ok(()),
            Err(_) => Err(Memory),
        },
    }
}

fn start_again(site: &mut MemSite<Accounts>, trouble: Trouble) -> Result<(), Memory> {
    match trouble {
        Trouble::Stop(..) => site.restart(),
        _ => Ok(()),
    }
}

fn held_by(site: &mut MemSite<Accounts>) -> Held {
    let mut read = [0; 100];
    match site.read(Area::JournalA, 0, &mut read) {
        Ok(count) if count <= read.len() => held_in(&read[..count]),
        _ => Held::Other,
    }
}

fn held_in(bytes: &[u8]) -> Held {
    for (image, held) in [
        (b"\x00".as_slice(), Held::ClosedGate),
        (JOURNAL, Held::SetUp),
        (CUT_RECORD, Held::CutRecord),
        (CUT_AT_SIX, Held::CutAtSix),
    ] {
        if bytes == image {
            return held;
        }
    }
    Held::Other
}

fn free_of_ann(site: &MemSite<Accounts>) -> Option<u64> {
    let gold = Name::read(b"gold").ok()?;
    let ann = Name::read(b"ann").ok()?;
    Some(site.core()?.free(gold, ann))
}

/// A set-up of a kind with trouble, and one of accounts after it.
pub fn set_up_twice(
    alloc: Global,
    way: Way,
    kind: LedgerKind,
    trouble: Trouble,
) -> Result<Ended, Memory> {
    let mut site = MemSite::new(alloc)?;
    set_up_twice_at(alloc, way, kind, trouble, &mut site)
}

fn set_up_twice_at(
    alloc: Global,
    way: Way,
    kind: LedgerKind,
    trouble: Trouble,
    site: &mut MemSite<Accounts>,
) -> Result<Ended, Memory> {
    prepare(site, trouble)?;
    let first = set_up(alloc, way, site, kind)?;
    let held = held_by(site);
    let free = free_of_ann(site);
    start_again(site, trouble)?;
    let second = set_up(alloc, way, site, LedgerKind::Accounts)?;
    Ok(Ended {
        first,
        held,
        free,
        second,
    })
}

/// How many calls on a new site a set-up makes.
pub fn count_calls(alloc: Global, way: Way) -> Result<u64, Memory> {
    let mut site = MemSite::new(alloc)?;
    count_calls_at(alloc, way, &mut site)
}

fn count_calls_at(alloc: Global, way: Way, site: &mut MemSite<Accounts>) -> Result<u64, Memory> {
    set_up(alloc, way, site, LedgerKind::Accounts)?;
    Ok(site.count())
}
