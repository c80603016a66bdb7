ghost use Rattle.std.specs.Prelude.{IsTrue};
ghost use Rattle.std.specs.List.{list_all};
ghost use Rattle.satp_schedule.specs.Lines.{has_form};

use crate::line::Line;
use crate::parse::parse_line;
use satp_base::{AddFault, LineReader, LinesFault, Memory, read_lines};
use std::alloc::Global;
use std::marker::Model;

/// Why a text is no schedule.
pub type ScheduleFault = LinesFault;

/// The lines of a drill, in order.
#[derive(Drop)]
pub struct Schedule {
    lines: Vec<Line>,
    ghost formed: { IsTrue (list_all has_form lines.items) },
}

impl Model for Schedule {
    ghost use Rattle.std.specs.Prelude.{List};
    ghost use Rattle.satp_schedule.specs.declared.line.Line.{Line};

    ghost Value = { List Line };

    ghost view = { λ s. s.lines.items };
}

impl Schedule {
    ghost use Rattle.std.specs.Prelude.{◌≡◌, ◌∷◌, ◌++◌, [], true, List, length, slice_get, MatchResult, OnOk, OnErr};
    ghost use Rattle.std.specs.Option.{option_copied};
    ghost use Rattle.satp_base.specs.Lines.{Fails, IsLines};
    ghost use Rattle.satp_schedule.specs.Lines.{AddsLine, most_bytes};
    ghost use Rattle.satp_schedule.specs.declared.line.Line.{Line};

    /// The most lines of a schedule.
    pub const LINES: usize = 4096;

    /// The most bytes of a schedule's text.
    pub const BYTES: usize = 262_144;

    /// No line.
    pub(crate) fn new(alloc: Global) -> Schedule
        ensures { result ≡ [] }
    {
        Schedule {
            lines: Vec::new(alloc),
        }
    }

    pub(crate) fn push(&mut self, line: Line) -> Result<(), Memory>
        requires { has_form line ≡ true }
        ensures ok { OnOk result (self.new ≡ self.old ++ line ∷ []) }
        ensures err { OnErr result (self.new ≡ self.old) }
    {
        self.lines.push(line)?;
        Ok(())
    }

    /// Reads lines, each ended by a line feed, whose fields are parted by one space:
    ///
    /// - `start <side> <number> <asset> <amount> <originator> <beneficiary>`
    /// - `resume <side> <session>`, `recover <side> <session>`, `abort <side> <session>`
    /// - `deliver <side> <n>`, `lose <n>`, `twice <n>`
    /// - `stop <side> <event> <pick>`, `fail <side> <call>`
    ///
    /// A side is `A` or `B`. Numbers are decimal, without sign or leading zero, from 1 to 4,294,967,295, a pick also 0.
    /// At most 4,096 lines and 262,144 bytes. The empty text is a schedule of no lines.
    /// `Long` comes for more bytes, `Line` for the first line that is refused, one past the most and an open last line too.
    pub fn read(alloc: Global, text: &[u8]) -> Result<Schedule, ScheduleFault>
        ensures read { MatchResult result
            (λ schedule. IsLines AddsLine most_bytes text.now [] schedule)
            (λ fault. Fails AddsLine most_bytes text.now [] fault) }
        ensures complete { (schedule : List Line) → IsLines AddsLine most_bytes text.now [] schedule → MatchResult result
            (λ found. found ≡ schedule)
            (λ fault. fault ≡ LinesFault.Memory) }
    {
        let mut schedule = Schedule::new(alloc);
        read_lines(&mut schedule, text, Schedule::BYTES)?;
        Ok(schedule)
    }

    /// How many lines there are.
    pub fn length(&self) -> usize
        ensures { result ≡ length self.now }
    {
        self.lines.len()
    }

    /// The line at an index from 0, and none exactly past the last.
    pub fn line(&self, index: usize) -> Option<&Line>
        ensures line { option_copied result ≡ slice_get self.now index }
        ensures formed { IsTrue (list_all has_form self.now) }
    {
        self.lines.get(index)
    }
}

impl LineReader for Schedule {
    ghost use Rattle.satp_schedule.specs.Lines.{AddsLine};

    ghost accepts = { AddsLine };

    fn add(&mut self, line: &[u8]) -> Result<(), AddFault> {
        let Some(line) = parse_line(line) else {
            return Err(AddFault::Refused);
        };
        if self.lines.len() >= Schedule::LINES {
            return Err(AddFault::Refused);
        }
        match self.push(line) {
            Ok(()) => Ok(()),
            Err(_) => Err(AddFault::Memory),
        }
    }
}
