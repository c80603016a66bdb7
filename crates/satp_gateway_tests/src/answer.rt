use satp_base::{Entry, Kind, SessionId, View, Way};
use satp_gateway::{OpenFault, Refused, SetUpFault};
use std::fmt;

/// What a line answers.
#[derive(Clone, Copy)]
pub enum Answer {
    /// The line is no call, or can't be made.
    Nothing,
    Done,
    /// The call said this text.
    Said(Shown),
    /// The call said nothing.
    Silent,
    Refused(Refused),
    NotSetUp(SetUpFault),
    NotOpened(OpenFault),
    Number(u64),
    Entry(Entry),
    View(View),
    Bytes(Digest),
}

/// A text that was said: its number in the case, what it is, and its bytes.
#[derive(Clone, Copy)]
pub struct Shown {
    pub number: usize,
    pub kind: Option<Kind>,
    pub bytes: Digest,
}

/// How many bytes there are, and the first bytes of their SHA-256.
#[derive(Clone, Copy)]
pub struct Digest {
    pub length: usize,
    pub link: [u8; 4],
}

impl Answer {
    /// Whether a call on the site failed.
    pub fn is_site_fault(&self) -> bool {
        matches!(
            self,
            Answer::Refused(Refused::Site)
                | Answer::NotSetUp(SetUpFault::Site)
                | Answer::NotOpened(OpenFault::Site)
        )
    }
}

impl fmt::Display for Answer {
    fn fmt<W: fmt::Write>(&self, f: &mut fmt::Formatter<W>) -> fmt::Result {
        match self {
            Answer::Nothing => f.write_str("-"),
            Answer::Done => f.write_str("done"),
            Answer::Said(shown) => show_text(f, shown),
            Answer::Silent => f.write_str("nothing"),
            Answer::Refused(refused) => show_refused(f, refused),
            Answer::NotSetUp(fault) => write!(f, "{fault:?}"),
            Answer::NotOpened(fault) => write!(f, "{fault:?}"),
            Answer::Number(number) => write!(f, "{number}"),
            Answer::Entry(entry) => write!(f, "{entry:?}"),
            Answer::View(view) => show_view(f, view),
            Answer::Bytes(digest) => show_digest(f, digest),
        }
    }
}

fn show_text<W: fmt::Write>(f: &mut fmt::Formatter<W>, shown: &Shown) -> fmt::Result {
    write!(f, "text {} ", shown.number)?;
    match shown.kind {
        Some(kind) => f.write_str(kind.text())?,
        None => f.write_str("unknown")?,
    }
    f.write_str(" ")?;
    show_digest(f, &shown.bytes)
}

fn show_digest<W: fmt::Write>(f: &mut fmt::Formatter<W>, digest: &Digest) -> fmt::Result {
    let [first, second, third, fourth] = digest.link;
    write!(
        f,
        "{} {first:02x}{second:02x}{third:02x}{fourth:02x}",
        digest.length
    )
}

fn show_refused<W: fmt::Write>(f: &mut fmt::Formatter<W>, refused: &Refused) -> fmt::Result {
    match refused {
        Refused::Strange { session } => show_strange(f, session),
        other => write!(f, "{other:?}"),
    }
}

fn show_strange<W: fmt::Write>(f: &mut fmt::Formatter<W>, session: &SessionId) -> fmt::Result {
    let name = str::from_utf8(session.gateway.bytes()).unwrap_or("?");
    write!(f, "Strange {name}.{}", session.number)
}

/// The role, the chain's length and last message, what was decided, and a letter for each operation that is done and for a recovery round.
fn show_view<W: fmt::Write>(f: &mut fmt::Formatter<W>, view: &View) -> fmt::Result {
    write!(f, "{:?} {} ", view.role, view.tale.length())?;
    match view.tale.last() {
        Some(kind) => f.write_str(kind.text())?,
        None => f.write_str("unknown")?,
    }
    show_way(f, view.way)?;
    for (is_so, word) in [
        (view.done.lock, " lock"),
        (view.done.burn, " burn"),
        (view.done.mint, " mint"),
        (view.done.assign, " assign"),
        (view.done.release, " release"),
        (view.rescue, " rescue"),
    ] {
        if is_so {
            f.write_str(word)?;
        }
    }
    Ok(())
}

fn show_way<W: fmt::Write>(f: &mut fmt::Formatter<W>, way: Option<Way>) -> fmt::Result {
    match way {
        Some(Way::Commit) => f.write_str(" Commit"),
        Some(Way::Back(cause)) => write!(f, " {cause:?}"),
        None => Ok(()),
    }
}
