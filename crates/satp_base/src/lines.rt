ghost use Rattle.std.specs.Prelude.{◌≡◌, ℕ, ◌+◌, ◌<◌, ◌≤◌, ◌==◌, List, OnOk, OnErr, Err, IfErr, MatchResult, IfSome, position, length};
ghost use Rattle.satp_base.specs.Lines.{Fails, IsLines, Leaves};

use thiserror::Error;

/// Why something isn't added to what is there.
#[derive(Clone, Copy, Debug, PartialEq, Eq)]
pub enum AddFault {
    /// It may not stand behind what is there.
    Refused,
    /// No memory was found.
    Memory,
}

/// Why a text of lines isn't read.
#[derive(Clone, Copy, Debug, PartialEq, Eq, Error)]
pub enum LinesFault {
    /// More bytes than the most.
    #[error("{length} bytes")]
    Long { length: usize },
    /// The first line that is refused, from 1; an open last line is.
    #[error("line {number}")]
    Line { number: u32 },
    #[error("no memory")]
    Memory,
}

/// What is built from lines, each accepted or refused behind those before it.
pub trait LineReader {
    /// The line, without its line feed, is accepted, and gives this.
    ghost accepts: { Self → List ℕ → Self → Type 0 };

    /// Adds a line. After a fault all is as before.
    fn add(&mut self, line: &[u8]) -> Result<(), AddFault>
        ensures ok { OnOk result (accepts self.old line.now self.new) }
        ensures refused { result ≡ Err AddFault.Refused → (after : Self) → ¬ accepts self.old line.now after }
        ensures err { OnErr result (self.new ≡ self.old) };
}

/// Where the first line ends.
fn line_end(text: &[u8]) -> Option<usize>
    ensures end { result ≡ position (λ byte. byte == 10) text.now }
    ensures within { IfSome result (λ end. end < length text.now) }
{
    text.iter().position(|byte| *byte == b'\n')
}

/// Adds each line of a text, and stops at the first that is refused.
///
/// The reader then has what the lines before that one gave, and behind `Long` nothing new. Where no memory
/// was found it has what some first lines gave.
pub fn read_lines<R: LineReader>(reader: &mut R, text: &[u8], most: usize) -> Result<(), LinesFault>
    requires { most < 4294967295 }
    ensures read { MatchResult result
        (λ done. IsLines R.accepts most text.now reader.old reader.new)
        (λ fault. Fails R.accepts most text.now reader.old fault) }
    ensures left { IfErr result (λ fault. Leaves R.accepts text.now reader.old fault reader.new) }
{
    if text.len() > most {
        return Err(LinesFault::Long { length: text.len() });
    }
    let mut at = 0;
    let mut number = 1;
    while at < text.len() {
        let Some(end) = line_end(&text[at..]) else {
            return Err(LinesFault::Line { number });
        };
        match reader.add(&text[at..at + end]) {
            Ok(()) => {}
            Err(AddFault::Refused) => return Err(LinesFault::Line { number }),
            Err(AddFault::Memory) => return Err(LinesFault::Memory),
        }
        at += end + 1;
        number += 1;
    }
    Ok(())
}
