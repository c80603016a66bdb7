use satp_base::{Address, Amount, LedgerKind, Memory, Name, SessionId, Text};
use std::alloc::AllocError;

/// What a command line asks the program to do.
#[derive(Drop)]
pub enum Command {
    /// `answer <name>`: read a proposal for the gateway of this name and print its receipt.
    Answer {
        name: Name,
    },
    /// `check` or `check --key <key>`: read a canonical text, with a key the signature around one.
    ///
    /// The key is given as base64url without padding, and held here as its 32 to 64 bytes.
    Check {
        key: Option<Text>,
    },
    /// `init --dir <dir> --name <name> --peer <peer> --at <at> --key <key> --ledger accounts`, or `outputs`: set up
    /// a gateway in a directory, whose peer has another name and listens at the address.
    ///
    /// The key is given and held as that of `check`.
    Init {
        dir: Text,
        name: Name,
        peer: Name,
        at: Address,
        key: Text,
        ledger: LedgerKind,
    },
    /// `serve --dir <dir> --listen <address> --connections <count>`: serve so many connections, 1 to 1,000,000, one after the other.
    Serve {
        dir: Text,
        listen: Address,
        connections: u32,
    },
    /// `start --dir <dir> --number <number> --amount <amount> --asset <asset> --from <name> --to <name>`: begin the transfer of this number, 1 to 4,294,967,295, and drive it to its end.
    Start {
        dir: Text,
        number: u32,
        amount: Amount,
        asset: Name,
        from: Name,
        to: Name,
    },
    /// `resume --dir <dir> --session <session>`: drive a session on.
    Resume {
        dir: Text,
        session: SessionId,
    },
    /// `recover --dir <dir> --session <session>`: compare the logs of a session with the peer, and end it.
    Recover {
        dir: Text,
        session: SessionId,
    },
    /// `abort --dir <dir> --session <session>`: decide for the rollback of a session.
    Abort {
        dir: Text,
        session: SessionId,
    },
    /// `show --dir <dir> --session <session>`: print a session.
    Show {
        dir: Text,
        session: SessionId,
    },
    /// `replay`: read the bytes of a journal and print its sessions.
    Replay,
    /// `drill --seed <seed>`: carry out a schedule between two new gateways and print what it comes to. It is the
    /// schedule of the seed, 1 to 4,294,967,295, and for 0 that on the input.
    Drill {
        seed: u32,
    },
}

/// Why words list no command.
#[derive(Clone, Copy, Debug, PartialEq, Eq)]
pub enum WordsFault {
    /// They are no command line of this program: help, too, is none.
    Refused,
    /// No memory was found to read them.
    Memory,
}

impl From<Memory> for WordsFault {
    ghost use Rattle.std.specs.Prelude.{◌≡◌};
    ghost use Rattle.satp_words.specs.declared.command.WordsFault.{WordsFault};
    ghost use Rattle.satp_words.specs.declared.command.WordsFault.TheVariants as words_fault;

    ghost from_gives = { λ memory fault. fault ≡ words_fault.Memory };

    fn from(_memory: Memory) -> WordsFault {
        WordsFault::Memory
    }
}

impl From<AllocError> for WordsFault {
    ghost use Rattle.std.specs.Prelude.{◌≡◌};
    ghost use Rattle.satp_words.specs.declared.command.WordsFault.{WordsFault};
    ghost use Rattle.satp_words.specs.declared.command.WordsFault.TheVariants as words_fault;

    ghost from_gives = { λ error fault. fault ≡ words_fault.Memory };

    fn from(_error: AllocError) -> WordsFault {
        WordsFault::Memory
    }
}
