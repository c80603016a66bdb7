//! Tests of texts and of values: canonical texts, signatures, chains, records, genesis texts and published vectors.
#![tactic(auto)]

#[cfg(test)]
mod canon_rows;
#[cfg(test)]
mod canon_tests;
#[cfg(test)]
mod chain_tests;
#[cfg(test)]
mod equalities;
#[cfg(test)]
mod genesis_tests;
#[cfg(test)]
mod grown;
#[cfg(test)]
mod hash_tests;
#[cfg(test)]
mod journal_tests;
#[cfg(test)]
mod jws_tests;
#[cfg(test)]
mod kind_tests;
#[cfg(test)]
mod longest_tests;
#[cfg(test)]
mod record_tests;
#[cfg(test)]
mod tale_tests;
#[cfg(test)]
mod value_tests;
