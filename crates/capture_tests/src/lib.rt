//! Tests of the crate `captures`: devices that fail, refused growths, and what no command shows. What captures and
//! traffic texts hold, and their faults, are rows (`tests`).
#![tactic(auto)]

#[cfg(test)]
mod capture_faults;
#[cfg(test)]
mod capture_growths;
#[cfg(test)]
mod collecting;
#[cfg(test)]
mod upgrades;
