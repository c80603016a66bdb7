//! Theorems on words. They stand over definitions alone and make no call.

ghost use Rattle.satp_words.specs.Commands.{OneCommand};
ghost use Rattle.satp_words.specs.Examples.{ChecksWords, DrillsWords, InitsWords, RefusesOptions, ReplaysWords, TakesOptions, TransfersWords};

/// A command takes an option as `--name value` and as `--name=value`, in any order, once, and one `--` at the end;
/// `check` may have a key and knows no help; `init` has six options, each once; the commands on transfers have theirs; `replay` has none; and `drill` has its seed.
pub fn law_examples()
    ensures takes { TakesOptions }
    ensures refuses { RefusesOptions }
    ensures check { ChecksWords }
    ensures init { InitsWords }
    ensures transfers { TransfersWords }
    ensures replay { ReplaysWords }
    ensures drill { DrillsWords }
{}

/// Words list at most one command.
pub fn law_one_command()
    ensures { OneCommand }
{}
