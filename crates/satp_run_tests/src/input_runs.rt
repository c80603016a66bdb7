//! Runs of `replay` and `drill`, and how each ends. No function here says what it does, so that the proofs of the tests carry no clause of `run`.

ghost use Rattle.std.specs.Prelude.{◌≡◌, false};

use crate::set_ups::{CUT_AT_SIX, CUT_RECORD, JOURNAL, push_word};
use satp_accounts::Accounts;
use satp_app::run;
use satp_base::{Memory, Text, Texts};
use satp_memory::{MemSink, MemSite, MemSource, MemWire};
use std::alloc::Global;

/// Which call of a run fails.
#[derive(Clone, Copy)]
enum Failure {
    Nothing,
    /// The read of this number.
    Read(u64),
    /// The write of this number.
    Write(u64),
}

/// The words, the bytes on the input and the call that fails; and the status, the output and the line on standard error.
type Row = (
    &'static [&'static str],
    &'static [u8],
    Failure,
    u8,
    &'static [u8],
    &'static [u8],
);

const REPLAY: &[&str] = &["replay"];

const LINES: &[u8] = b"gateway alpha peer beta\nrecords 1\n";

/// A drill of the schedule on the input.
const DRILL: &[&str] = &["drill", "--seed", "0"];

const TRANSFER: &[u8] = b"start A 1 gold 250 ann bob\n";

const COMMITTED: &[u8] =
    b"drill 0: sessions 1, committed 1, rolled back 0, not begun 0, free gold 20000\n";

const REFUSED: &[u8] = b"satp: words refused\n";

const ROWS: [Row; 22] = [
    (REPLAY, JOURNAL, Failure::Nothing, 0, LINES, b""),
    (REPLAY, b"", Failure::Nothing, 5, b"", b"satp: log empty\n"),
    (
        REPLAY,
        b"\x00",
        Failure::Nothing,
        5,
        b"",
        b"satp: log empty\n",
    ),
    (
        REPLAY,
        CUT_RECORD,
        Failure::Nothing,
        5,
        b"",
        b"satp: log damaged at 0\n",
    ),
    (
        REPLAY,
        CUT_AT_SIX,
        Failure::Nothing,
        5,
        b"",
        b"satp: log damaged at 6\n",
    ),
    (
        REPLAY,
        b"\x01\x00\x03abc\x00",
        Failure::Nothing,
        5,
        b"",
        b"satp: record 0 refused\n",
    ),
    (
        REPLAY,
        JOURNAL,
        Failure::Read(1),
        11,
        b"",
        b"satp: input failed\n",
    ),
    (
        REPLAY,
        JOURNAL,
        Failure::Read(2),
        11,
        b"",
        b"satp: input failed\n",
    ),
    (
        REPLAY,
        JOURNAL,
        Failure::Write(1),
        11,
        b"",
        b"satp: output failed\n",
    ),
    (DRILL, TRANSFER, Failure::Nothing, 0, COMMITTED, b""),
    (
        DRILL,
        b"",
        Failure::Nothing,
        0,
        b"drill 0: sessions 0, committed 0, rolled back 0, not begun 0, free gold 20000\n",
        b"",
    ),
    (
        DRILL,
        b"fail A 1\nstart A 1 gold 250 ann bob\n",
        Failure::Nothing,
        0,
        b"drill 0: sessions 1, committed 0, rolled back 0, not begun 1, free gold 20000\n",
        b"",
    ),
    (
        DRILL,
        b"fail A 3\nstart A 1 gold 250 ann bob\n",
        Failure::Nothing,
        0,
        b"drill 0: sessions 1, committed 0, rolled back 1, not begun 0, free gold 20000\n",
        b"",
    ),
    (
        DRILL,
        b"start A 1 gold 250 ann bob\nstart C 2 gold 250 ann bob\n",
        Failure::Nothing,
        5,
        b"",
        b"satp: schedule line 2 refused\n",
    ),
    (
        DRILL,
        b"start A 1 gold 250 ann bob",
        Failure::Nothing,
        5,
        b"",
        b"satp: schedule line 1 refused\n",
    ),
    (
        DRILL,
        TRANSFER,
        Failure::Read(1),
        11,
        b"",
        b"satp: input failed\n",
    ),
    (
        DRILL,
        TRANSFER,
        Failure::Read(2),
        11,
        b"",
        b"satp: input failed\n",
    ),
    (
        DRILL,
        TRANSFER,
        Failure::Write(1),
        11,
        b"",
        b"satp: output failed\n",
    ),
    (&["drill"], TRANSFER, Failure::Nothing, 2, b"", REFUSED),
    (&["drill", "0"], TRANSFER, Failure::Nothing, 2, b"", REFUSED),
    (
        &["drill", "--seed=07"],
        TRANSFER,
        Failure::Nothing,
        2,
        b"",
        REFUSED,
    ),
    (
        &["drill", "--seed=4294967296"],
        TRANSFER,
        Failure::Nothing,
        2,
        b"",
        REFUSED,
    ),
];

fn fail(input: &mut MemSource, out: &mut MemSink, failure: Failure) -> Result<(), Memory>
    ensures input { input.new.over ≡ input.old.over }
    ensures out { out.new.failed ≡ out.old.failed }
{
    match failure {
        Failure::Nothing => Ok(()),
        Failure::Read(call) => input.fail(call),
        Failure::Write(call) => out.fail(call),
    }
}

fn words_of(alloc: Global, list: &[&str]) -> Result<Texts, Memory> {
    let mut words = Texts::new(alloc);
    for word in list {
        push_word(alloc, &mut words, word)?;
    }
    Ok(words)
}

fn is_ended(
    alloc: Global,
    row: &Row,
    input: &mut MemSource,
    out: &mut MemSink,
) -> Result<bool, Memory>
    requires over { input.old.over ≡ false }
    requires out_failed { out.old.failed ≡ false }
{
    let (list, _, _, of_status, of_out, of_err) = *row;
    let words = words_of(alloc, list)?;
    let mut site = MemSite::<Accounts>::new(alloc)?;
    let mut wire = MemWire::new(alloc, b"")?;
    let mut err = MemSink::new(alloc)?;
    let status = run(alloc, &words, &mut site, &mut wire, input, out, &mut err);
    let is_printed = out.bytes() == of_out && err.bytes() == of_err;
    Ok(status == of_status && is_printed && site.count() == 0)
}

fn is_as_wanted(alloc: Global, row: &Row) -> Result<bool, Memory> {
    let (_, bytes, failure, _, _, _) = *row;
    let mut input = MemSource::new(alloc, bytes)?;
    let mut out = MemSink::new(alloc)?;
    fail(&mut input, &mut out, failure)?;
    is_ended(alloc, row, &mut input, &mut out)
}

/// The first row that ends otherwise.
pub fn first_other(alloc: Global) -> Result<Option<usize>, Memory> {
    for (index, row) in ROWS.iter().enumerate() {
        if !is_as_wanted(alloc, row)? {
            return Ok(Some(index));
        }
    }
    Ok(None)
}

/// What a drill of the seed 7 prints; none where it doesn't end with 0. Each read of its input fails.
pub fn drill_seven(alloc: Global) -> Result<Option<Text>, Memory> {
    let words = words_of(alloc, &["drill", "--seed", "7"])?;
    let mut site = MemSite::<Accounts>::new(alloc)?;
    let mut wire = MemWire::new(alloc, b"")?;
    let mut input = MemSource::new(alloc, b"")?;
    input.fail(1)?;
    let mut out = MemSink::new(alloc)?;
    let mut err = MemSink::new(alloc)?;
    match run(
        alloc, &words, &mut site, &mut wire, &mut input, &mut out, &mut err,
    ) {
        0 => Ok(Some(Text::copy(alloc, out.bytes())?)),
        _ => Ok(None),
    }
}
