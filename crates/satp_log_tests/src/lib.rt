//! Tests of logs: the journals of a whole transfer, at both gateways, read as they are and with one payload changed, and the lines that `replay` makes of them.
#![tactic(auto)]

#[cfg(test)]
mod changes;
#[cfg(test)]
mod journals;
#[cfg(test)]
mod log_tests;
#[cfg(test)]
mod replay_tests;
