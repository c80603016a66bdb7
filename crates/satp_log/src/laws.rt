//! Theorems on journals and on the states of sessions. They stand over definitions alone and make no call.

ghost use Rattle.satp_log.specs.Journals.{JournalsGoOn, NoneRefused, OneJournal, OneRefused, PrefixesAreJournals};
ghost use Rattle.satp_log.specs.States.{AllowedFit, MadeAreNext, NotesAreNext, OneState, StatesGoOn, TakenAreNext, TextsAreTheRecords};

/// Payloads are the journal of at most one gateway, with one list of records, and then none of them is refused. Of
/// other payloads at most one is the first that is refused. A journal's first payloads are a journal too, and it goes
/// on by the payload of each record that may come, and by no other payload.
pub fn law_journals()
    ensures one { OneJournal }
    ensures none { NoneRefused }
    ensures first { OneRefused }
    ensures prefixes { PrefixesAreJournals }
    ensures more { JournalsGoOn }
{}

/// The records of a session determine what its state shows. A record without a message comes next where the role's rule
/// allows it; a message that is made, where the rule allows its kind; one that is taken, where moreover it follows on the
/// chain and its text is its own. With each of them the state goes on.
pub fn law_states()
    ensures one { OneState }
    ensures texts { TextsAreTheRecords }
    ensures notes { NotesAreNext }
    ensures made { MadeAreNext }
    ensures allowed { AllowedFit }
    ensures taken { TakenAreNext }
    ensures goes { StatesGoOn }
{}
