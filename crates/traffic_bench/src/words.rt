//! The words of a run.

use anyhow::{Result, bail};
use command_line::Engine;
use program::Wanted;
use std::alloc::Global;

/// What the requests are like.
#[derive(Clone, Copy, Debug, PartialEq, Eq)]
pub enum Kind {
    /// As short as they get, a piece each.
    Short,
    /// As browsers write them, a piece each.
    Browser,
    /// Of all kinds, several in a row, with bodies and with faults, cut into pieces at any place.
    Pieces,
}

/// What is to be done.
#[derive(Clone, Copy, Debug)]
pub struct Work {
    /// What the requests are like.
    pub kind: Kind,
    /// What is written of each message; nothing where the capture is inspected.
    pub wanted: Option<Wanted>,
    /// Whether some are turned away.
    pub tight: bool,
    /// How many files the site has, 1 to 65,536.
    pub files: u64,
    /// How many requests come.
    pub requests: u64,
    /// What all is made from.
    pub seed: u64,
}

/// The work that these words name.
pub fn read_work(alloc: Global, words: &[String]) -> Result<Work> {
    let [kind, wanted, settings, files, requests, seed] = words else {
        bail!(
            "usage: short|browser|pieces staged|plain|table|inspect open|tight FILES REQUESTS SEED"
        );
    };
    let kind = match kind.as_str() {
        "short" => Kind::Short,
        "browser" => Kind::Browser,
        "pieces" => Kind::Pieces,
        _ => bail!("no such traffic"),
    };
    let wanted = match wanted.as_str() {
        "staged" => Some(Wanted::Replies(Engine::Staged)),
        "plain" => Some(Wanted::Replies(Engine::Plain)),
        "table" => Some(Wanted::Rows),
        "inspect" => None,
        _ => bail!("nothing such is wanted"),
    };
    Ok(Work {
        kind,
        wanted,
        tight: settings.as_str() == "tight",
        files: files.parse()?,
        requests: requests.parse()?,
        seed: seed.parse()?,
    })
}
