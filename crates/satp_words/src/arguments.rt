ghost use Rattle.std.specs.Prelude.{◌≡◌, ◌++◌, map, IfOk};
ghost use Rattle.std.specs.Vec.Iter.{into_iter_items};
ghost use Rattle.std.specs.String.{string_bytes};
ghost use Rattle.satp_words.specs.Arguments.{words_of};

use satp_base::{Memory, Text, Texts};
use std::alloc::Global;
use std::env::Args;

/// The words of a command line: all arguments of a program but the first, which is its own name.
pub fn words_of(alloc: Global, arguments: Args) -> Result<Texts, Memory>
    ensures { IfOk result (λ words. words ≡ words_of (into_iter_items arguments)) }
{
    let mut arguments = arguments;
    let _program = arguments.next();
    copies(alloc, arguments)
}

/// A text for each argument.
fn copies(alloc: Global, arguments: Args) -> Result<Texts, Memory>
    ensures { IfOk result (λ texts. texts ≡ map string_bytes (into_iter_items arguments)) }
{
    let mut arguments = arguments;
    let mut texts = Texts::new(alloc);
    while let Some(argument) = arguments.next() {
        let text = Text::copy(alloc, argument.as_bytes())?;
        if texts.push(text).is_err() {
            return Err(Memory);
        }
    }
    Ok(texts)
}
