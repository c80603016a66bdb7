use crate::fault::DriverFault;
use satp_base::read_number;
use std::env;
use std::num::NonZeroUsize;

/// What is driven.
#[derive(Clone, Copy, Debug, PartialEq, Eq)]
pub enum Mode {
    Sign,
    Verify,
    Texts,
    Chains,
    Records,
    Schedules,
    /// With the most bytes of a piece.
    Requests(NonZeroUsize),
}

impl Mode {
    /// The mode that the words after the program's name pick.
    pub fn of_words(rt: &HostRuntime) -> Result<Mode, DriverFault> {
        let mut words = env::args(rt)?;
        let _program = words.next();
        let (Some(first), second, None) = (words.next(), words.next(), words.next()) else {
            return Err(DriverFault::Words);
        };
        let piece = second.as_ref().map(|word| word.as_bytes());
        Mode::of(first.as_bytes(), piece).ok_or(DriverFault::Words)
    }

    fn of(first: &[u8], second: Option<&[u8]>) -> Option<Mode> {
        match second {
            None => Mode::of_lines(first),
            Some(piece) if first == b"requests".as_slice() => {
                let piece = read_number(piece)? as usize;
                Some(Mode::Requests(NonZeroUsize::new(piece)?))
            }
            _ => None,
        }
    }

    /// The modes that answer line by line.
    fn of_lines(first: &[u8]) -> Option<Mode> {
        const MODES: [(&str, Mode); 6] = [
            ("sign", Mode::Sign),
            ("verify", Mode::Verify),
            ("texts", Mode::Texts),
            ("chains", Mode::Chains),
            ("records", Mode::Records),
            ("schedules", Mode::Schedules),
        ];
        for (word, mode) in MODES {
            if first == word.as_bytes() {
                return Some(mode);
            }
        }
        None
    }
}
