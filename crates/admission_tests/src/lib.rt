//! Tests of the crates `token_bucket` and `admission`.
#![tactic(auto)]

#[cfg(test)]
mod buckets;
#[cfg(test)]
mod memory;
#[cfg(test)]
mod rows;
#[cfg(test)]
mod window;
