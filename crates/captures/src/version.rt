//! The formats of recorded traffic, and in what they differ.

ghost use Rattle.std.specs.Prelude.{◌≡◌};
ghost use Rattle.captures.specs.Captures.{IsRow};
ghost use Rattle.captures.specs.Reference.{format_of};
ghost use Rattle.captures.specs.Upgrades.{later};

/// A format of recorded traffic, as the first line of a text names it.
#[derive(Clone, Copy, Debug, PartialEq, Eq)]
pub enum Version {
    /// A capture of version 1: connections from 0 to 4,095, without tiers.
    One,
    /// A capture of version 2: connections from 0 to 65,535, which may be given tiers.
    Two,
    /// Traffic, which may be days long: as a capture of version 2, but a number is free again after the end of its
    /// connection, and then names a further one.
    Traffic,
}

/// What a format sets.
#[derive(Clone, Copy)]
pub(crate) struct Row {
    /// The first line of a text, up to the start.
    pub opening: &'static str,
    /// The greatest number of a connection.
    pub last_connection: u64,
    /// Whether a connection may be given a tier.
    pub has_tiers: bool,
    /// Whether a number is free again after the end of its connection.
    pub used_again: bool,
    /// The most bytes of a text.
    pub max_text_bytes: usize,
    /// How many messages are answered at most.
    pub max_messages: usize,
}

impl Version {
    /// What the format sets.
    pub(crate) fn row(self) -> Row
        ensures { IsRow result (format_of self) }
    {
        match self {
            Version::One => Row {
                opening: "haboob-capture 1 ",
                last_connection: 4_095,
                has_tiers: false,
                used_again: false,
                max_text_bytes: 1_073_741_824,
                max_messages: 1_048_576,
            },
            Version::Two => Row {
                opening: "haboob-capture 2 ",
                last_connection: 65_535,
                has_tiers: true,
                used_again: false,
                max_text_bytes: 1_073_741_824,
                max_messages: 1_048_576,
            },
            Version::Traffic => Row {
                opening: "haboob-traffic 1 ",
                last_connection: 65_535,
                has_tiers: true,
                used_again: true,
                max_text_bytes: 1_125_899_906_842_624,
                max_messages: 536_870_912,
            },
        }
    }

    /// Whether a number is free again after the end of its connection.
    pub fn used_again(self) -> bool
        ensures { result ≡ (format_of self).used_again }
    {
        self.row().used_again
    }

    /// How many messages are answered at most.
    pub fn max_messages(self) -> usize
        ensures { result ≡ (format_of self).max_messages }
    {
        self.row().max_messages
    }

    /// The later of two formats.
    pub fn later(self, other: Version) -> Version
        ensures { result ≡ later self other }
    {
        match self {
            Version::One => other,
            Version::Two => match other {
                Version::One | Version::Two => Version::Two,
                Version::Traffic => Version::Traffic,
            },
            Version::Traffic => Version::Traffic,
        }
    }
}
