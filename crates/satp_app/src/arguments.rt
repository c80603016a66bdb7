ghost use Rattle.std.specs.Prelude.{◌≡◌, false, IfOk};
ghost use Rattle.satp_app.specs.Arguments.{ArgumentsRule, HasWords};
ghost use Rattle.satp_outcome.specs.Outside.{outside, sink, site_state, source, streams, wire_state};

use crate::top::run;
use satp_base::{Memory, Sink, Site, Source, Texts, Wire};
use satp_outcome::{Outcome, report};
use satp_words::words_of;
use std::alloc::Global;
use std::env::Args;
use std::io::{self, ErrorKind};

/// [`run`] over the arguments of a program, of which the first is its own name.
///
/// An argument that is no UTF-8 makes them no command line, which is 2. Where no memory is found for the words it is 10, and nothing is read or printed.
pub fn run_arguments<S: Site, W: Wire, I: Source, K: Sink, E: Sink>(
    alloc: Global,
    arguments: io::Result<Args>,
    site: &mut S,
    wire: &mut W,
    input: &mut I,
    out: &mut K,
    err: &mut E,
) -> u8
    requires closed { W.is_open wire.old ≡ false }
    requires over { I.is_over input.old ≡ false }
    requires out_failed { K.has_failed out.old ≡ false }
    requires err_failed { E.has_failed err.old ≡ false }
    ensures rule { ArgumentsRule arguments
        (outside (streams (source I.faults I.left I.is_over input.old) (sink K.faults K.taken K.has_failed out.old)) (site_state S.faults S.told S.book site.old) (wire_state W.faults W.told W.listens W.is_open wire.old))
        (outside (streams (source I.faults I.left I.is_over input.new) (sink K.faults K.taken K.has_failed out.new)) (site_state S.faults S.told S.book site.new) (wire_state W.faults W.told W.listens W.is_open wire.new))
        (sink E.faults E.taken E.has_failed err.old) (sink E.faults E.taken E.has_failed err.new) result }
    ensures site_beside { S.beside site.old site.new }
    ensures wire_beside { W.beside wire.old wire.new }
{
    match given(alloc, arguments) {
        Ok(words) => run(alloc, &words, site, wire, input, out, err),
        Err(Memory) => {
            let _ = report(err, Outcome::Memory);
            Outcome::Memory.status()
        }
    }
}

/// The words among the arguments; none where an argument is no UTF-8.
fn given(alloc: Global, arguments: io::Result<Args>) -> Result<Texts, Memory>
    ensures { IfOk result (HasWords arguments) }
{
    match arguments {
        Ok(arguments) => words_of(alloc, arguments),
        Err(error) if error.kind() == ErrorKind::OutOfMemory => Err(Memory),
        Err(_) => Ok(Texts::new(alloc)),
    }
}
