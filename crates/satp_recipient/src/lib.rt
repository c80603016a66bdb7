//! What a recipient does next in a session, and which record it may store.
//!
//! The recipient accepts a proposal and answers each message of the origin. It mints when the origin is prepared to
//! commit, says that it is ready, and assigns once the origin has burnt. Before it is ready it may turn back by a
//! reject; after that only the origin decides.
#![tactic(auto)]

ghost use Rattle.satp_base.specs.Roles.{LawAborts, LawReasons, LawTales};
ghost use Rattle.satp_base.specs.declared.message.Role.TheVariants.{Recipient};

mod choice;
mod table;

pub use choice::{abort, after, allows};
pub use table::next;

/// Behind any list of records that the rule allows the chain's kinds are a tale, and a further record that it allows
/// keeps them one. The law makes no call.
pub fn law_tales()
    ensures { LawTales Recipient }
{}

/// In a view of allowed records, the record that an abort gives may come. The law makes no call.
pub fn law_aborts()
    ensures { LawAborts Recipient }
{}

/// A recipient decides nothing but to turn back, and the reason that its reject names is why. The law makes no call.
pub fn law_reasons()
    ensures { LawReasons }
{}
