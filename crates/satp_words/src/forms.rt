ghost use Rattle.std.specs.Prelude.{◌≡◌, true, map, IfOk, Err, codes};
ghost use Rattle.clap.specs.Words.{is_simple_and_free};
ghost use Rattle.satp_words.specs.Commands.{form, needed, of_session};
ghost use Rattle.satp_words.specs.Options.{HasMatches, Takes, app, rule};

use crate::command::WordsFault;
use crate::options::{CommandOption, matches};
use crate::verbs::Verb;
use clap::ArgMatches;
use std::alloc::Global;

/// An option that has to be there.
fn needed(name: &str) -> CommandOption<'_>
    ensures { rule result ≡ needed name.entry.now }
{
    CommandOption {
        name,
        required: true,
    }
}

/// What the options of a command have in the words.
pub(crate) fn options_of<'a>(
    alloc: Global,
    verb: Verb,
    words: &'a [&'a str],
) -> Result<ArgMatches<'a>, WordsFault>
    ensures ok { IfOk result (λ found. HasMatches (form verb) (map (λ word. word.now) words.entry.now) found) }
    ensures refused { result ≡ Err WordsFault.Refused → ¬ Takes (form verb) (map (λ word. word.now) words.entry.now) }
{
    match verb {
        Verb::Check => check_options(alloc, words),
        Verb::Init => init_options(alloc, words),
        Verb::Serve => {
            let options = [needed("dir"), needed("listen"), needed("connections")];
            matches(alloc, "serve", &options, words)
        }
        Verb::Start => {
            let options = [
                needed("dir"),
                needed("number"),
                needed("amount"),
                needed("asset"),
                needed("from"),
                needed("to"),
            ];
            matches(alloc, "start", &options, words)
        }
        Verb::Resume => session_options(alloc, "resume", words),
        Verb::Recover => session_options(alloc, "recover", words),
        Verb::Abort => session_options(alloc, "abort", words),
        Verb::Show => session_options(alloc, "show", words),
        Verb::Replay => matches(alloc, "replay", &[], words),
        Verb::Drill => matches(alloc, "drill", &[needed("seed")], words),
    }
}

/// What the option of `check`, which may be left out, has in the words.
fn check_options<'a>(alloc: Global, words: &'a [&'a str]) -> Result<ArgMatches<'a>, WordsFault>
    ensures ok { IfOk result (λ found. HasMatches (form Verb.Check) (map (λ word. word.now) words.entry.now) found) }
    ensures refused { result ≡ Err WordsFault.Refused → ¬ Takes (form Verb.Check) (map (λ word. word.now) words.entry.now) }
{
    let options = [CommandOption {
        name: "key",
        required: false,
    }];
    matches(alloc, "check", &options, words)
}

fn init_options<'a>(alloc: Global, words: &'a [&'a str]) -> Result<ArgMatches<'a>, WordsFault>
    ensures ok { IfOk result (λ found. HasMatches (form Verb.Init) (map (λ word. word.now) words.entry.now) found) }
    ensures refused { result ≡ Err WordsFault.Refused → ¬ Takes (form Verb.Init) (map (λ word. word.now) words.entry.now) }
{
    let options = [
        needed("dir"),
        needed("name"),
        needed("peer"),
        needed("at"),
        needed("key"),
        needed("ledger"),
    ];
    matches(alloc, "init", &options, words)
}

/// What the options of a command on a session have in the words.
fn session_options<'a>(
    alloc: Global,
    name: &'a str,
    words: &'a [&'a str],
) -> Result<ArgMatches<'a>, WordsFault>
    requires { is_simple_and_free (app name.now of_session) ≡ true }
    ensures ok { IfOk result (λ found. HasMatches (app name.entry.now of_session) (map (λ word. word.now) words.entry.now) found) }
    ensures refused { result ≡ Err WordsFault.Refused → ¬ Takes (app name.entry.now of_session) (map (λ word. word.now) words.entry.now) }
{
    matches(alloc, name, &[needed("dir"), needed("session")], words)
}
