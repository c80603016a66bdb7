// Which messages of a command go wrong.
ghost use Rattle.std.specs.Prelude.{◌≡◌};
ghost use Rattle.satp_loop.specs.Mails.{is_named, no_troubles, passage_of};

/// Which messages of a command go wrong, by their numbers from 1 on.
#[derive(Clone, Copy, Debug, PartialEq, Eq)]
pub struct Troubles {
    /// This message is lost: it counts as sent, and the connection ends in its place.
    pub lost: Option<u32>,
    /// This message comes twice, unless it is lost.
    pub twice: Option<u32>,
}

/// How a message passes.
#[derive(Clone, Copy, Debug, PartialEq, Eq)]
pub enum Passage {
    Once,
    Twice,
    Lost,
}

impl Troubles {
    /// No message goes wrong.
    pub fn none() -> Troubles
        ensures { result ≡ no_troubles }
    {
        Troubles {
            lost: None,
            twice: None,
        }
    }
}

/// Whether a message is named.
fn is_named(named: Option<u32>, number: u64) -> bool
    ensures { result ≡ is_named named number }
{
    match named {
        Some(named) => u64::from(named) == number,
        None => false,
    }
}

/// How the message of this number passes.
pub(crate) fn passage_of(troubles: Troubles, number: u64) -> Passage
    ensures { result ≡ passage_of troubles number }
{
    if is_named(troubles.lost, number) {
        return Passage::Lost;
    }
    if is_named(troubles.twice, number) {
        return Passage::Twice;
    }
    Passage::Once
}
