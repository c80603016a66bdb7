ghost use Rattle.satp_app.specs.Commands.{CommandRule, EndRule, RunRule};
ghost use Rattle.satp_outcome.specs.Outside.{outside, sink, site_state, source, streams, wire_state};
ghost use Rattle.satp_words.specs.Commands.{IsListed};
ghost use Rattle.std.specs.Prelude.{◌≡◌, ℕ, false, List};

use crate::answer_command::answer;
use crate::check_command::{check, check_signed};
use crate::init_command::init;
use crate::replay_command::replay;
use satp_base::{Sink, Site, Source, Terms, Texts, Wire};
use satp_drill_command::drill;
use satp_gateway_commands::{abort, show};
use satp_jws::Key;
use satp_outcome::{Outcome, report};
use satp_peer_commands::{recover, resume, serve, start};
use satp_records::Setup;
use satp_words::{Command, WordsFault, read};
use std::alloc::Global;

/// Does what the words ask for, and answers the exit status. The words leave the program's own name out.
///
/// The input hasn't ended, and no device has failed yet. No read follows one that failed or found the end, and no write one that failed.
///
/// `init` enters a directory of the site and sets a gateway up there, with the genesis on the input. `show`, `abort`, `serve`, `start`, `resume` and `recover` enter one and open the gateway there.
/// Then `show` prints a session and `abort` turns one back; `serve` listens, and hands what its peers post to the gateway; the last three drive a session over one connection to the gateway's peer, and print how it ended.
/// `answer` prints the receipt of the transfer proposal on the input, `check` the kind and length of the canonical text on it, with a key those of a compact JWS of one;
/// they drop one final newline of the input. `replay` prints the sessions of the journal whose bytes are the input, and how many records it has.
/// `drill` carries out the schedule of a seed, for the seed 0 that on the input, and prints what it comes to; at another seed it leaves the input alone.
/// These four make no call on the site. Only `serve` and the drives make a call on the wire.
///
/// Of the statuses the first that holds counts:
///
/// - 2: the words are no command line; nothing is read or printed.
/// - 8: the directory wasn't entered, or a call of the opening failed.
/// - 9: the journal is damaged, or one of its records may not stand there.
/// - 13: no gateway was set up there; for `init`, one was.
/// - 11: a read of the input failed.
/// - 5: the input isn't what the command reads, or is longer than 8,192 bytes, for `init` 65,536, for `replay` 134,217,728, for `drill` 262,144.
///   It is read to its end, or to the first byte past the longest input.
/// - 3: no record of the gateway names the session.
/// - 4: `answer`: the proposal's receiver isn't the gateway named. `abort`: a message of the session decides it already. `start`: a record names the session, or as many were started as may be.
/// - 8: a call of the command's work on the site failed. 6: a call on the wire failed. 7: the peer's answer ends the drive.
/// - 11: a write of the output failed; what it took is a prefix of the lines. What was done stands.
///   A `serve` whose first line isn't printed serves all the same, and ends so in place of 8 and 6.
/// - 12: the session is rolled back. 0: all else was done.
///
/// 10, want of memory, may come at any point. Every status but 0 and 12 has a line on `err`, whose failures are
/// passed over: there is nowhere left to tell them.
pub fn run<S: Site, W: Wire, I: Source, K: Sink, E: Sink>(
    alloc: Global,
    words: &Texts,
    site: &mut S,
    wire: &mut W,
    input: &mut I,
    out: &mut K,
    err: &mut E,
) -> u8
    requires closed { W.is_open wire.old ≡ false }
    requires over { I.is_over input.old ≡ false }
    requires out_failed { K.has_failed out.old ≡ false }
    requires err_failed { E.has_failed err.old ≡ false }
    ensures rule { RunRule words.now
        (outside (streams (source I.faults I.left I.is_over input.old) (sink K.faults K.taken K.has_failed out.old)) (site_state S.faults S.told S.book site.old) (wire_state W.faults W.told W.listens W.is_open wire.old))
        (outside (streams (source I.faults I.left I.is_over input.new) (sink K.faults K.taken K.has_failed out.new)) (site_state S.faults S.told S.book site.new) (wire_state W.faults W.told W.listens W.is_open wire.new))
        (sink E.faults E.taken E.has_failed err.old) (sink E.faults E.taken E.has_failed err.new) result }
    ensures site_beside { S.beside site.old site.new }
    ensures wire_beside { W.beside wire.old wire.new }
{
    let outcome = obey(alloc, words, site, wire, input, out);
    let _ = report(err, outcome);
    outcome.status()
}

/// Does what the words ask for.
fn obey<S: Site, W: Wire, I: Source, K: Sink>(
    alloc: Global,
    words: &Texts,
    site: &mut S,
    wire: &mut W,
    input: &mut I,
    out: &mut K,
) -> Outcome
    requires closed { W.is_open wire.old ≡ false }
    requires over { I.is_over input.old ≡ false }
    requires failed { K.has_failed out.old ≡ false }
    ensures rule { EndRule words.now
        (outside (streams (source I.faults I.left I.is_over input.old) (sink K.faults K.taken K.has_failed out.old)) (site_state S.faults S.told S.book site.old) (wire_state W.faults W.told W.listens W.is_open wire.old))
        (outside (streams (source I.faults I.left I.is_over input.new) (sink K.faults K.taken K.has_failed out.new)) (site_state S.faults S.told S.book site.new) (wire_state W.faults W.told W.listens W.is_open wire.new))
        result }
    ensures site_beside { S.beside site.old site.new }
    ensures wire_beside { W.beside wire.old wire.new }
{
    match read(alloc, words) {
        Ok(command) => perform(alloc, words, command, site, wire, input, out),
        Err(WordsFault::Refused) => Outcome::WordsRefused,
        Err(WordsFault::Memory) => Outcome::Memory,
    }
}

/// Does what the command says that the words list.
fn perform<S: Site, W: Wire, I: Source, K: Sink>(
    alloc: Global,
    _words: &Texts,
    command: Command,
    site: &mut S,
    wire: &mut W,
    input: &mut I,
    out: &mut K,
) -> Outcome
    requires listed { IsListed _words.now command }
    requires closed { W.is_open wire.old ≡ false }
    requires over { I.is_over input.old ≡ false }
    requires failed { K.has_failed out.old ≡ false }
    ensures rule { CommandRule command
        (outside (streams (source I.faults I.left I.is_over input.old) (sink K.faults K.taken K.has_failed out.old)) (site_state S.faults S.told S.book site.old) (wire_state W.faults W.told W.listens W.is_open wire.old))
        (outside (streams (source I.faults I.left I.is_over input.new) (sink K.faults K.taken K.has_failed out.new)) (site_state S.faults S.told S.book site.new) (wire_state W.faults W.told W.listens W.is_open wire.new))
        result }
    ensures site_beside { S.beside site.old site.new }
    ensures wire_beside { W.beside wire.old wire.new }
{
    match command {
        Command::Answer { name } => answer(alloc, name, input, out),
        Command::Check { key: None } => check(alloc, input, out),
        Command::Check { key: Some(bytes) } => match Key::new(bytes.bytes()) {
            Ok(key) => check_signed(alloc, &key, input, out),
            Err(_) => unreachable!(),
        },
        Command::Init {
            dir,
            name,
            peer,
            at,
            key,
            ledger,
        } => {
            let setup = Setup {
                name,
                peer,
                at,
                key,
            };
            init(alloc, &dir, &setup, ledger, site, input, out)
        }
        Command::Abort { dir, session } => abort(alloc, &dir, session, site, out),
        Command::Show { dir, session } => show(alloc, &dir, session, site, out),
        Command::Serve {
            dir,
            listen,
            connections,
        } => serve(alloc, &dir, &listen, connections, site, wire, out),
        Command::Start {
            dir,
            number,
            amount,
            asset,
            from,
            to,
        } => {
            let terms = Terms {
                amount,
                asset,
                originator: from,
                beneficiary: to,
            };
            start(alloc, &dir, number, &terms, site, wire, out)
        }
        Command::Resume { dir, session } => resume(alloc, &dir, session, site, wire, out),
        Command::Recover { dir, session } => recover(alloc, &dir, session, site, wire, out),
        Command::Replay => replay(alloc, input, out),
        Command::Drill { seed } => drill(alloc, seed, input, out),
    }
}
