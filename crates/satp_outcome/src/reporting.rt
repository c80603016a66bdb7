ghost use Rattle.std.specs.Prelude.{◌≡◌, ◌++◌, ◌∷◌, [], false};
ghost use Rattle.satp_outcome.specs.Outcomes.{line, line_of};
ghost use Rattle.satp_outcome.specs.Lines.{words_in};
ghost use Rattle.satp_outcome.specs.Outside.{Says, sink};

use crate::line::{LineWords, line_words};
use crate::outcome::Outcome;
use crate::saying::{say, say_phrase};
use satp_base::{Sink, SinkFault};

/// Writes the line of an outcome; nothing where the work was done or the session was rolled back.
pub fn report<E: Sink>(err: &mut E, outcome: Outcome) -> Result<(), SinkFault>
    requires { E.has_failed err.old ≡ false }
    ensures { Says (line_of outcome) (sink E.faults E.taken E.has_failed err.old) (sink E.faults E.taken E.has_failed err.new) result }
{
    match line_words(outcome) {
        Some(words) => say_line(err, words),
        None => Ok(()),
    }
}

fn say_line<E: Sink>(err: &mut E, words: LineWords) -> Result<(), SinkFault>
    requires { E.has_failed err.old ≡ false }
    ensures { Says (line (words_in words)) (sink E.faults E.taken E.has_failed err.old) (sink E.faults E.taken E.has_failed err.new) result }
{
    match say(err, b"satp: ") {
        Ok(()) => say_words(err, words),
        Err(fault) => Err(fault),
    }
}

fn say_words<E: Sink>(err: &mut E, words: LineWords) -> Result<(), SinkFault>
    requires { E.has_failed err.old ≡ false }
    ensures { Says (words_in words ++ 10 ∷ []) (sink E.faults E.taken E.has_failed err.old) (sink E.faults E.taken E.has_failed err.new) result }
{
    match say_phrase(err, words.before, words.phrase, words.after) {
        Ok(()) => say(err, b"\n"),
        Err(fault) => Err(fault),
    }
}
