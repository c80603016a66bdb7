use satp_base::{Amount, Name, SessionId, Text};
use satp_schedule::{Line, Schedule, ScheduleFault, Side, generate};
use std::alloc::Global;

/// How many lines are read from a text.
fn lines(alloc: Global, text: &[u8]) -> Result<usize, ScheduleFault> {
    match Schedule::read(alloc, text) {
        Ok(schedule) => Ok(schedule.length()),
        Err(fault) => Err(fault),
    }
}

/// The one line of a text.
fn only_line(alloc: Global, text: &[u8]) -> Option<Line> {
    match Schedule::read(alloc, text) {
        Ok(schedule) if schedule.length() == 1 => schedule.line(0).copied(),
        _ => None,
    }
}

fn start() -> Option<Line> {
    Some(Line::Start {
        side: Side::A,
        number: 4_294_967_295,
        asset: Name::read(b"gold").ok()?,
        amount: Amount::from(9_007_199_254_740_991)?,
        originator: Name::read(b"ann").ok()?,
        beneficiary: Name::read(b"bob").ok()?,
    })
}

/// A line of each sort.
fn sorts(start: Line, session: SessionId) -> [(&'static [u8], Line); 9] {
    let side = Side::A;
    [
        (b"start A 4294967295 gold 9007199254740991 ann bob\n", start),
        (b"resume A alpha.7\n", Line::Resume { side, session }),
        (b"recover A alpha.7\n", Line::Recover { side, session }),
        (b"abort A alpha.7\n", Line::Abort { side, session }),
        (b"deliver A 3\n", Line::Deliver { side, n: 3 }),
        (
            b"stop B 60 0\n",
            Line::Stop {
                side: Side::B,
                event: 60,
                pick: 0,
            },
        ),
        (b"fail A 3\n", Line::Fail { side, call: 3 }),
        (b"lose 11\n", Line::Lose { n: 11 }),
        (b"twice 4294967295\n", Line::Twice { n: 4_294_967_295 }),
    ]
}

/// The first sort of line that is read as another one.
fn first_other_sort(alloc: Global) -> Option<usize> {
    let (Some(start), Ok(session)) = (start(), SessionId::read(b"alpha.7")) else {
        return Some(0);
    };
    for (index, (text, wanted)) in sorts(start, session).iter().enumerate() {
        if only_line(alloc, text) != Some(*wanted) {
            return Some(index);
        }
    }
    None
}

#[test]
fn each_sort_of_line(rt: HostRuntime) {
    assert_eq!(rt; first_other_sort(rt.alloc()), None);
}

const REFUSED: [&[u8]; 36] = [
    b"\n",
    b" \n",
    b"lose 1",
    b"lose 1\r\n",
    b"Lose 1\n",
    b"drop 1\n",
    b"lose\n",
    b"lose \n",
    b"lose 0\n",
    b"lose 01\n",
    b"lose 4294967296\n",
    b"lose +1\n",
    b"lose -1\n",
    b"lose 1 \n",
    b" lose 1\n",
    b"lose  1\n",
    b"lose\t1\n",
    b"lose A 1\n",
    b"lose 1 1\n",
    b"twice 0\n",
    b"deliver 1\n",
    b"deliver C 1\n",
    b"deliver a 1\n",
    b"stop A 1\n",
    b"stop A 0 1\n",
    b"stop A 1 00\n",
    b"stop A 1 4294967296\n",
    b"fail A 0\n",
    b"fail A 1 1\n",
    b"abort A alpha\n",
    b"abort A alpha.0\n",
    b"resume alpha.1\n",
    b"start A 1 gold 0 ann bob\n",
    b"start A 1 gold 9007199254740992 ann bob\n",
    b"start A 1 gold 1 ann\n",
    b"start A 1 gold 1 ann bob now\n",
];

/// The first of the texts that isn't refused at its first line.
fn first_read(alloc: Global) -> Option<usize> {
    REFUSED.iter().position(|text| lines(alloc, text) != Err(ScheduleFault::Line { number: 1 }))
}

/// A piece so many times over, an end, and what is read.
type Row = (
    &'static [u8],
    usize,
    &'static [u8],
    Result<usize, ScheduleFault>,
);

/// A line of 64 bytes; a schedule of the most lines has the most bytes.
const LONG_LINE: &[u8] = b"start A 1 gold 1 abcdefghijklmnopqrstuvwxyz012345 abcdefghijklm\n";

const ROWS: [Row; 7] = [
    (b"", 0, b"", Ok(0)),
    (
        b"lose 1\n",
        1,
        b"twice 2\n\nlose 1\n",
        Err(ScheduleFault::Line { number: 3 }),
    ),
    (
        b"lose 1\n",
        1,
        b"lose 2",
        Err(ScheduleFault::Line { number: 2 }),
    ),
    (b"lose 1\n", 4096, b"", Ok(4096)),
    (
        b"lose 1\n",
        4097,
        b"",
        Err(ScheduleFault::Line { number: 4097 }),
    ),
    (LONG_LINE, 4096, b"", Ok(4096)),
    (
        LONG_LINE,
        4096,
        b"\n",
        Err(ScheduleFault::Long { length: 262_145 }),
    ),
];

fn put(text: &mut Text, piece: &[u8], times: usize) {
    for _ in 0..times {
        let _ = text.append(piece);
    }
}

fn is_as_wanted(alloc: Global, row: &Row) -> bool {
    let (piece, times, end, wanted) = row;
    match Text::copy(alloc, b"") {
        Ok(mut text) => {
            put(&mut text, piece, *times);
            put(&mut text, end, 1);
            lines(alloc, text.bytes()) == *wanted
        }
        Err(_) => false,
    }
}

#[test]
fn refused_lines_and_limits(rt: HostRuntime) {
    let alloc = rt.alloc();
    let other = ROWS.iter().position(|row| !is_as_wanted(alloc, row));
    assert_eq!(rt; (first_read(alloc), other), (None, None));
}

/// The first twenty lines for the seed 7, as a script of another language gave them.
const SEVEN: &[u8] = b"twice 7
start A 1 gold 79 ann bob
stop B 5 4
start B 1 gold 74 bob ann
twice 6
start A 2 gold 87 ann bob
start B 2 gold 33 bob ann
lose 8
start A 3 gold 50 ann bob
start B 3 gold 100 bob ann
start A 4 gold 52 ann bob
lose 9
start B 4 gold 94 bob ann
start A 5 gold 54 ann bob
stop B 53 0
start B 5 gold 41 bob ann
deliver A 26
twice 9
start A 6 gold 74 ann bob
start B 6 gold 8 bob ann
";

/// The first place below `most` at which two schedules differ.
fn first_other(a: &Schedule, b: &Schedule, most: usize) -> Option<usize> {
    (0..most).position(|index| a.line(index) != b.line(index))
}

/// The last two lines for the seed 7.
fn last_of_seven() -> Option<[Line; 2]> {
    let session = SessionId::read(b"beta.100").ok()?;
    Some([
        Line::Abort {
            side: Side::A,
            session,
        },
        Line::Deliver {
            side: Side::B,
            n: 728,
        },
    ])
}

/// The two lines from an index on.
fn two_from(schedule: &Schedule, index: usize) -> Option<[Line; 2]> {
    let first = schedule.line(index)?;
    let second = schedule.line(index.wrapping_add(1))?;
    Some([*first, *second])
}

fn is_of_seven(made: &Schedule, first: &Schedule) -> bool {
    made.length() == 400
        && first.length() == 20
        && first_other(made, first, 20).is_none()
        && two_from(made, 398) == last_of_seven()
        && made.line(400).is_none()
}

fn makes_seven(alloc: Global) -> bool {
    match (generate(alloc, 7), Schedule::read(alloc, SEVEN)) {
        (Ok(made), Ok(first)) => is_of_seven(&made, &first),
        _ => false,
    }
}

#[test]
fn a_schedule_from_seven(rt: HostRuntime) {
    assert!(rt; makes_seven(rt.alloc()));
}
