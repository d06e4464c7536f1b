//! Tests of the crates `http_requests`, `page_cache` and `responses`.
#![tactic(auto)]

#[cfg(test)]
mod cache_sequence;
#[cfg(test)]
mod caches;
#[cfg(test)]
mod framing;
#[cfg(test)]
mod page_growths;
#[cfg(test)]
mod pages;
#[cfg(test)]
mod reply_growths;
#[cfg(test)]
mod request_growths;
#[cfg(test)]
mod writers;
