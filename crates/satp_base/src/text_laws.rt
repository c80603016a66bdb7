//! Theorems on the texts that are signed, and on those of a chain. They stand over definitions alone and make no call.

ghost use Rattle.satp_base.specs.Signatures.{OneMessage, OnePayload};
ghost use Rattle.satp_base.specs.Chains.{AppendsText, MadePartsAreFormed, SidesTakeTurns};
ghost use Rattle.satp_base.specs.Sizes.{ChainTextsAreEntries, OwnTextsAreShort, PayloadsAreShorter};
ghost use Rattle.satp_base.specs.Verdicts.{LooksAtTheLastTwo, NextIsTheOne, TalesGoOn, TheOneIsNext};

/// A compact JWS shows its header and its payload, under whatever keys.
pub fn law_signatures()
    ensures { OnePayload }
{}

/// A text that is signed here is the text of one message, under whatever keys.
pub fn law_one_own_text()
    ensures { OneMessage }
{}

/// One more part puts one more text behind those of the parts before it.
pub fn law_next_text()
    ensures { AppendsText }
{}

/// Whose kind a message is goes with its place: the origin's kinds stand at odd places of a tale, the recipient's at even ones.
pub fn law_turns()
    ensures { SidesTakeTurns }
{}

/// What is said by a kind is of that kind, and formed where it is a kind of the chain other than the proposal.
pub fn law_made_parts()
    ensures { MadePartsAreFormed }
{}

/// The signed text of a chain message has at most 643 bytes, and an update may carry it; that of any message has at most
/// 5,815. No text is shorter than the payload that it shows.
pub fn law_sizes()
    ensures chain { ChainTextsAreEntries }
    ensures own { OwnTextsAreShort }
    ensures payload { PayloadsAreShorter }
{}

/// A verdict takes a kind exactly where the chain's kinds with it are a tale. What a chain takes next is one message for each
/// part, and it takes that message exactly where the part goes on with the tale. A whole chain looks at its last two texts
/// alone, so that it answers alike where the others are no longer kept.
pub fn law_verdicts()
    ensures tales { TalesGoOn }
    ensures one { NextIsTheOne }
    ensures next { TheOneIsNext }
    ensures whole { LooksAtTheLastTwo }
{}
