use satp_devices::Patience;
use std::time::Duration;

/// A call on a wire.
#[derive(Clone, Copy)]
pub enum Step<'a> {
    Patience(Patience),
    Listen(&'a str),
    Accept,
    Connect(&'a str),
    Read(u16),
    Write(u32),
    Shut,
}

impl Step<'_> {
    /// The call that a line spells: a word for the call, and words for what it is given.
    pub fn read(line: &str) -> Option<Step<'_>> {
        let mut words = line.split(' ');
        let call = words.next()?;
        let first = words.next();
        match call {
            "accept" => Some(Step::Accept),
            "shut" => Some(Step::Shut),
            "listen" => Some(Step::Listen(first?)),
            "connect" => Some(Step::Connect(first?)),
            "read" => Some(Step::Read(first?.parse::<u16>().ok()?)),
            "write" => Some(Step::Write(first?.parse::<u32>().ok()?)),
            "patience" => Some(Step::Patience(Patience {
                dial: millis(first)?,
                silence: millis(words.next())?,
                whole: millis(words.next())?,
                farewell: millis(words.next())?,
            })),
            _ => None,
        }
    }
}

fn millis(word: Option<&str>) -> Option<Duration> {
    Some(Duration::from_millis(word?.parse::<u64>().ok()?))
}
