//! Tests of the engines: the crates `arrivals` and `replay`. What a text shows stands in the rows of `tests/`.
#![tactic(auto)]

#[cfg(test)]
mod batch_texts;
#[cfg(test)]
mod batches;
#[cfg(test)]
mod explaining;
#[cfg(test)]
mod gates;
#[cfg(test)]
mod large_pieces;
#[cfg(test)]
mod many_replies;
#[cfg(test)]
mod policies;
#[cfg(test)]
mod replay_devices;
#[cfg(test)]
mod replay_growths;
#[cfg(test)]
mod replaying;
#[cfg(test)]
mod sizes;
#[cfg(test)]
mod table_devices;
#[cfg(test)]
mod table_growths;
