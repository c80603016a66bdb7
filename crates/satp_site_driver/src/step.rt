use satp_base::{Area, LedgerKind};

/// A call on a site.
#[derive(Clone, Copy)]
pub enum Step<'a> {
    Enter(&'a str),
    Length(Area),
    Read { area: Area, at: u64, count: u16 },
    Write { area: Area, at: u64, count: u16 },
    Cut { area: Area, size: u64 },
    Sync(Area),
    Found(LedgerKind),
    Raise,
    Lock,
    Look,
}

impl Step<'_> {
    /// The call that a line spells: a word for the call, and words for what it is given.
    pub fn read(line: &str) -> Option<Step<'_>> {
        let mut words = line.split(' ');
        let call = words.next()?;
        let first = words.next();
        match call {
            "raise" => Some(Step::Raise),
            "lock" => Some(Step::Lock),
            "look" => Some(Step::Look),
            "enter" => Some(Step::Enter(first?)),
            "found" => Some(Step::Found(kind(first?)?)),
            "length" => Some(Step::Length(area(first?)?)),
            "sync" => Some(Step::Sync(area(first?)?)),
            _ => on_bytes(call, area(first?)?, words.next(), words.next()),
        }
    }
}

/// A call on places of an area.
fn on_bytes<'a>(
    call: &str,
    area: Area,
    place: Option<&str>,
    count: Option<&str>,
) -> Option<Step<'a>> {
    let at = place?.parse::<u64>().ok()?;
    match call {
        "cut" => Some(Step::Cut { area, size: at }),
        "read" => Some(Step::Read {
            area,
            at,
            count: count?.parse::<u16>().ok()?,
        }),
        "write" => Some(Step::Write {
            area,
            at,
            count: count?.parse::<u16>().ok()?,
        }),
        _ => None,
    }
}

fn area(word: &str) -> Option<Area> {
    match word {
        "journal-a" => Some(Area::JournalA),
        "journal-b" => Some(Area::JournalB),
        "ledger" => Some(Area::Ledger),
        _ => None,
    }
}

fn kind(word: &str) -> Option<LedgerKind> {
    match word {
        "accounts" => Some(LedgerKind::Accounts),
        "outputs" => Some(LedgerKind::Outputs),
        _ => None,
    }
}
