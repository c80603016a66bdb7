//! Tests of what is read as lines and heads: the words of a command, schedules, and HTTP.
#![tactic(auto)]

#[cfg(test)]
mod ends;
#[cfg(test)]
mod http_rows;
#[cfg(test)]
mod http_tests;
#[cfg(test)]
mod schedule_tests;
#[cfg(test)]
mod words_tests;
