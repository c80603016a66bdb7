ghost use Rattle.std.specs.Prelude.{◌≡◌, IfOk, Err, codes, MatchResult};
ghost use Rattle.satp_words.specs.declared.command.Command.{Command};
ghost use Rattle.satp_words.specs.Commands.{Begins, IsListed, NotListed};

use crate::command::{Command, WordsFault};
use crate::command_values::values;
use crate::forms::options_of;
use crate::options::texts_of;
use crate::verbs::find_verb;
use satp_base::{Name, Texts};
use std::alloc::Global;

/// The command that the words list. They leave the program's own name out.
///
/// `Refused` comes exactly where they list none. The options of a command are given as
/// `--option value` or `--option=value`, in any order and each at most once, and one `--` may stand last.
pub fn read(alloc: Global, words: &Texts) -> Result<Command, WordsFault>
    ensures listed { IfOk result (λ command. IsListed words.now command) }
    ensures refused { result ≡ Err WordsFault.Refused → NotListed words.now }
    ensures complete { (command : Command) → IsListed words.now command → MatchResult result (λ found. found ≡ command) (λ fault. fault ≡ WordsFault.Memory) }
{
    let Some(first) = words.get(0) else {
        return Err(WordsFault::Refused);
    };
    if first.bytes() == b"answer".as_slice() {
        return answer(words);
    }
    let Some(verb) = find_verb(first.bytes()) else {
        return Err(WordsFault::Refused);
    };
    let texts = texts_of(alloc, words)?;
    let found = options_of(alloc, verb, texts.as_slice())?;
    values(alloc, verb, &found)
}

/// The words of `answer`: a name follows, and nothing else.
fn answer(words: &Texts) -> Result<Command, WordsFault>
    requires { Begins words.now (codes "answer") }
    ensures listed { IfOk result (λ command. IsListed words.now command) }
    ensures refused { result ≡ Err WordsFault.Refused → NotListed words.now }
    ensures complete { (command : Command) → IsListed words.now command → MatchResult result (λ found. found ≡ command) (λ fault. fault ≡ WordsFault.Memory) }
{
    if words.length() != 2 {
        return Err(WordsFault::Refused);
    }
    let Some(word) = words.get(1) else {
        return Err(WordsFault::Refused);
    };
    match Name::read(word.bytes()) {
        Ok(name) => Ok(Command::Answer { name }),
        Err(_) => Err(WordsFault::Refused),
    }
}
