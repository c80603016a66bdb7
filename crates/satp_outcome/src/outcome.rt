ghost use Rattle.std.specs.Prelude.{◌≡◌};
ghost use Rattle.satp_outcome.specs.Outcomes.{input_status, peer_status, place_status, status_of};

use satp_base::SessionId;
use satp_canon::CanonFault;
use satp_jws::JwsFault;
use satp_points::Refused;

/// How a command ends. Two ways that share a status stay apart, since each has a line of its own.
#[derive(Clone, Copy, Debug, PartialEq, Eq)]
pub enum Outcome {
    /// The command's work was done. A transfer was committed.
    Done,
    /// The session was rolled back.
    RolledBack,
    /// The words are no command line of this program.
    WordsRefused,
    /// No memory was found.
    Memory,
    /// A read of the input failed.
    InputFailed,
    /// A write of the output failed.
    OutputFailed,
    /// What the command read is refused.
    Input(InputEnd),
    /// The directory, its journal, its ledger or one of its sessions ends the command.
    Place(PlaceEnd),
    /// The wire, or what the peer answered, ends the command.
    Peer(PeerEnd),
}

/// Why a command refuses what it read.
#[derive(Clone, Copy, Debug, PartialEq, Eq)]
pub enum InputEnd {
    /// The input is longer than what the command reads.
    Long,
    /// It is no canonical text of a message.
    Text(CanonFault),
    /// It is no compact JWS under the key.
    Signature(JwsFault),
    /// It is a message of another kind than the command answers.
    Kind,
    /// It is a message for another gateway.
    Receiver,
    /// This line, from 1, is no line of a genesis, or may not stand there.
    GenesisLine { number: u32 },
    /// This line, from 1, is no line of a schedule, or may not stand there.
    ScheduleLine { number: u32 },
    /// At this place of a journal stands the first open gate without a whole record after it.
    LogDamaged { at: u64 },
    /// The record at this index of a journal, from 0, is the first that may not stand there.
    LogRecord { index: usize },
    /// The journal has no record.
    LogEmpty,
}

/// Why a command ends at the directory that it was to work in.
#[derive(Clone, Copy, Debug, PartialEq, Eq)]
pub enum PlaceEnd {
    /// A call on the site failed.
    Site,
    /// At this place of the journal stands the first open gate without a whole record after it.
    JournalDamaged { at: u64 },
    /// The record at this index of the journal, from 0, is the first that may not stand there.
    JournalRecord { index: usize },
    /// The journal has a record: a gateway was set up there before.
    GatewayThere,
    /// The journal has no record: no gateway was set up there.
    NoGateway,
    /// No record names the session.
    NoSession { session: SessionId },
    /// A record names the session already.
    Exists { session: SessionId },
    /// So many sessions were started, and no more may be.
    Full { count: u32 },
    /// The message at this place decides the session.
    TooLate { place: u8 },
}

/// Why a command ends at the wire or at its peer.
#[derive(Clone, Copy, Debug, PartialEq, Eq)]
pub enum PeerEnd {
    /// A call on the wire failed.
    Wire,
    /// The peer ended the connection before its answer was whole.
    Early,
    /// The peer answered with this code, which is neither 200 nor 204.
    Status { code: u16 },
    /// What the peer said is no HTTP answer that is read.
    NotHttp,
    /// The peer had nothing to answer, and the session isn't over.
    Silent,
    /// The gateway refuses what the peer answered.
    Refused(Refused),
    /// The session isn't over after as many texts as a drive posts.
    Turns,
}

impl Outcome {
    /// The exit status of the program.
    pub fn status(self) -> u8
        ensures { result ≡ status_of self }
    {
        match self {
            Outcome::Done => 0,
            Outcome::WordsRefused => 2,
            Outcome::Memory => 10,
            Outcome::InputFailed | Outcome::OutputFailed => 11,
            Outcome::RolledBack => 12,
            Outcome::Input(end) => end.status(),
            Outcome::Place(end) => end.status(),
            Outcome::Peer(end) => end.status(),
        }
    }
}

impl InputEnd {
    fn status(self) -> u8
        ensures { result ≡ input_status self }
    {
        match self {
            InputEnd::Receiver => 4,
            _ => 5,
        }
    }
}

impl PlaceEnd {
    fn status(self) -> u8
        ensures { result ≡ place_status self }
    {
        match self {
            PlaceEnd::NoSession { .. } => 3,
            PlaceEnd::Exists { .. } | PlaceEnd::Full { .. } | PlaceEnd::TooLate { .. } => 4,
            PlaceEnd::Site => 8,
            PlaceEnd::JournalDamaged { .. } | PlaceEnd::JournalRecord { .. } => 9,
            PlaceEnd::GatewayThere | PlaceEnd::NoGateway => 13,
        }
    }
}

impl PeerEnd {
    fn status(self) -> u8
        ensures { result ≡ peer_status self }
    {
        match self {
            PeerEnd::Wire => 6,
            _ => 7,
        }
    }
}
