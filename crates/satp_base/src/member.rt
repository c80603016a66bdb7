ghost use Rattle.std.specs.Prelude.{◌≡◌};
ghost use Rattle.satp_base.specs.Canonical.{member_text};

/// The name of a member of a message's JSON object, in byte order.
#[derive(Clone, Copy, Debug, PartialEq, Eq)]
pub enum MemberName {
    Amount,
    Asset,
    Beneficiary,
    Entries,
    Kind,
    Last,
    Length,
    Originator,
    Previous,
    Reason,
    Receiver,
    Sender,
    Sequence,
    Session,
    Terms,
    Version,
    /// Any name that no message has.
    Unknown,
}

impl MemberName {
    /// The name as it is written; `unknown` where it is none of a message's.
    pub fn text(self) -> &'static str
        ensures { result.now ≡ member_text self }
    {
        match self {
            MemberName::Amount => "amount",
            MemberName::Asset => "asset",
            MemberName::Beneficiary => "beneficiary",
            MemberName::Entries => "entries",
            MemberName::Kind => "kind",
            MemberName::Last => "last",
            MemberName::Length => "length",
            MemberName::Originator => "originator",
            MemberName::Previous => "previous",
            MemberName::Reason => "reason",
            MemberName::Receiver => "receiver",
            MemberName::Sender => "sender",
            MemberName::Sequence => "sequence",
            MemberName::Session => "session",
            MemberName::Terms => "terms",
            MemberName::Version => "version",
            MemberName::Unknown => "unknown",
        }
    }
}
