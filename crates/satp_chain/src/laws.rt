//! Theorems on chains. They stand over definitions alone and make no call.

ghost use Rattle.satp_chain.specs.ChainLaws.{NextFollows, OneListOfParts, OneListOfTexts, PrefixesAreChains, WhatFollows};

/// The parts of a chain determine its texts, and its texts its parts; and every prefix of a chain is a chain.
pub fn law_chains()
    ensures texts { OneListOfTexts }
    ensures parts { OneListOfParts }
    ensures prefixes { PrefixesAreChains }
{}

/// What follows is the one next message of the chain, with the next text where it is signed with the key. And the next
/// message of each part that goes on with the tale follows.
pub fn law_next()
    ensures one { WhatFollows }
    ensures next { NextFollows }
{}
