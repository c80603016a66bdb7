ghost use Rattle.std.specs.Prelude.{◌≡◌, ℕ, List, IfOk, Err, Option, Some, codes};
ghost use Rattle.clap.specs.Words.{first_value, found_of};
ghost use Rattle.satp_base.specs.declared.address.Address.{Address};
ghost use Rattle.satp_base.specs.declared.amount.Amount.{Amount};
ghost use Rattle.satp_base.specs.declared.ledger.LedgerKind.{LedgerKind};
ghost use Rattle.satp_base.specs.declared.name.Name.{Name};
ghost use Rattle.satp_base.specs.declared.session.SessionId.{SessionId};
ghost use Rattle.satp_words.specs.Commands.{HasValues, InitValues, IsKey, MayBe, ServeValues, SessionValues, StartValues, verb_of};
ghost use Rattle.satp_words.specs.declared.command.Command.{Command};

use crate::command::{Command, WordsFault};
use crate::keys::key;
use crate::values::{
    address_value, amount_value, key_value, ledger_value, name_value, number_value, session_value,
    text_value,
};
use crate::verbs::Verb;
use clap::ArgMatches;
use satp_base::{SessionId, Text};
use std::alloc::Global;

/// The greatest number of connections that are served.
const MOST_CONNECTIONS: u32 = 1_000_000;

/// The command whose options have these values.
pub(crate) fn values(alloc: Global, verb: Verb, found: &ArgMatches) -> Result<Command, WordsFault>
    ensures ok { IfOk result (λ command. (verb_of command ≡ Some verb) × HasValues (first_value (found_of found.now)) command) }
    ensures refused { result ≡ Err WordsFault.Refused → (command : Command) → verb_of command ≡ Some verb → ¬ HasValues (first_value (found_of found.now)) command }
{
    match verb {
        Verb::Check => check(alloc, found),
        Verb::Init => init(alloc, found),
        Verb::Serve => serve(alloc, found),
        Verb::Start => start(alloc, found),
        Verb::Resume => {
            let InDirectory { dir, session } = dir_and_session(alloc, found)?;
            Ok(Command::Resume { dir, session })
        }
        Verb::Recover => {
            let InDirectory { dir, session } = dir_and_session(alloc, found)?;
            Ok(Command::Recover { dir, session })
        }
        Verb::Abort => {
            let InDirectory { dir, session } = dir_and_session(alloc, found)?;
            Ok(Command::Abort { dir, session })
        }
        Verb::Show => {
            let InDirectory { dir, session } = dir_and_session(alloc, found)?;
            Ok(Command::Show { dir, session })
        }
        Verb::Replay => Ok(Command::Replay),
        Verb::Drill => Ok(Command::Drill {
            seed: number_value(found, "seed", 0, u32::MAX)?,
        }),
    }
}

fn check(alloc: Global, found: &ArgMatches) -> Result<Command, WordsFault>
    ensures ok { IfOk result (λ command. (verb_of command ≡ Some Verb.Check) × HasValues (first_value (found_of found.now)) command) }
    ensures refused { result ≡ Err WordsFault.Refused → (key : Option (List ℕ)) → ¬ MayBe IsKey (first_value (found_of found.now) (codes "key")) key }
{
    match found.get_str("key") {
        Some(text) => match key(alloc, text) {
            Ok(key) => Ok(Command::Check { key: Some(key) }),
            Err(fault) => Err(fault),
        },
        None => Ok(Command::Check { key: None }),
    }
}

/// The values of `init`: the peer isn't the name.
fn init(alloc: Global, found: &ArgMatches) -> Result<Command, WordsFault>
    ensures ok { IfOk result (λ command. (verb_of command ≡ Some Verb.Init) × HasValues (first_value (found_of found.now)) command) }
    ensures refused { result ≡ Err WordsFault.Refused → (dir : List ℕ) (name peer : Name) (at : Address) (key : List ℕ) (ledger : LedgerKind) → ¬ InitValues (first_value (found_of found.now)) dir name peer at key ledger }
{
    let dir = text_value(alloc, found, "dir")?;
    let name = name_value(found, "name")?;
    let peer = name_value(found, "peer")?;
    let at = address_value(found, "at")?;
    let key = key_value(alloc, found, "key")?;
    let ledger = ledger_value(found, "ledger")?;
    if peer == name {
        return Err(WordsFault::Refused);
    }
    Ok(Command::Init {
        dir,
        name,
        peer,
        at,
        key,
        ledger,
    })
}

fn serve(alloc: Global, found: &ArgMatches) -> Result<Command, WordsFault>
    ensures ok { IfOk result (λ command. (verb_of command ≡ Some Verb.Serve) × HasValues (first_value (found_of found.now)) command) }
    ensures refused { result ≡ Err WordsFault.Refused → (dir : List ℕ) (listen : Address) (connections : ℕ) → ¬ ServeValues (first_value (found_of found.now)) dir listen connections }
{
    let dir = text_value(alloc, found, "dir")?;
    let listen = address_value(found, "listen")?;
    let connections = number_value(found, "connections", 1, MOST_CONNECTIONS)?;
    Ok(Command::Serve {
        dir,
        listen,
        connections,
    })
}

fn start(alloc: Global, found: &ArgMatches) -> Result<Command, WordsFault>
    ensures ok { IfOk result (λ command. (verb_of command ≡ Some Verb.Start) × HasValues (first_value (found_of found.now)) command) }
    ensures refused { result ≡ Err WordsFault.Refused → (dir : List ℕ) (number : ℕ) (amount : Amount) (asset from to : Name) → ¬ StartValues (first_value (found_of found.now)) dir number amount asset from to }
{
    let dir = text_value(alloc, found, "dir")?;
    let number = number_value(found, "number", 1, u32::MAX)?;
    let amount = amount_value(found, "amount")?;
    let asset = name_value(found, "asset")?;
    let from = name_value(found, "from")?;
    let to = name_value(found, "to")?;
    Ok(Command::Start {
        dir,
        number,
        amount,
        asset,
        from,
        to,
    })
}

/// A session, and the directory of the gateway that holds it.
#[derive(Drop)]
struct InDirectory {
    dir: Text,
    session: SessionId,
}

fn dir_and_session(alloc: Global, found: &ArgMatches) -> Result<InDirectory, WordsFault>
    ensures ok { IfOk result (λ it. SessionValues (first_value (found_of found.now)) it.dir it.session) }
    ensures refused { result ≡ Err WordsFault.Refused → (dir : List ℕ) (session : SessionId) → ¬ SessionValues (first_value (found_of found.now)) dir session }
{
    let dir = text_value(alloc, found, "dir")?;
    let session = session_value(found, "session")?;
    Ok(InDirectory { dir, session })
}
