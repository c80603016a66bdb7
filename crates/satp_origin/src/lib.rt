//! What an origin does next in a session, and which record it may store.
//!
//! The origin proposes, locks once the recipient has agreed, and asks for the commit. When the recipient is ready it
//! decides: it commits and burns, or it turns back, releases and says so. It may turn back until it has committed.
#![tactic(auto)]

ghost use Rattle.satp_base.specs.Roles.{LawAborts, LawTales};
ghost use Rattle.satp_base.specs.declared.message.Role.TheVariants.{Origin};

mod choice;
mod table;

pub use choice::{abort, after, allows};
pub use table::next;

/// Behind any list of records that the rule allows the chain's kinds are a tale, and a further record that it allows
/// keeps them one. The law makes no call.
pub fn law_tales()
    ensures { LawTales Origin }
{}

/// In a view of allowed records, the record that an abort gives may come. The law makes no call.
pub fn law_aborts()
    ensures { LawAborts Origin }
{}
