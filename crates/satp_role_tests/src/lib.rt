//! Tests of both sides' tables, over each view that records lead to, and of the choices of a recovery round.
#![tactic(auto)]

#[cfg(test)]
mod lines;
#[cfg(test)]
mod recovery_tests;
#[cfg(test)]
mod turn_tests;
#[cfg(test)]
mod walks;
