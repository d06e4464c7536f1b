//! What is wrong with a document, and at which key.

ghost use Rattle.std.specs.Prelude.{◌≡◌, ◌≤◌, length};
ghost use Rattle.settings.specs.ConfigFaults.{kind_name, range, shape};

use crate::Key;
use std::alloc::AllocError;
use std::error::Error;
use std::fmt;

/// What is wrong with a settings document.
#[derive(Clone, Copy, Debug, PartialEq, Eq)]
pub enum ConfigFaultKind {
    /// It has more than 65,536 bytes, or is no TOML document.
    Text,
    /// It has a table or a key that isn't in the list.
    Unknown,
    /// A value isn't an integer, a list of integers or a table, as its key wants.
    Shape,
    /// An integer is outside its range, or lists don't fit together.
    Range,
    /// There was no memory for it.
    Memory,
}

/// The first fault of a settings document. It names a key where its kind is `Shape` or `Range`.
#[derive(Clone, Copy, Debug, PartialEq, Eq)]
pub struct ConfigFault {
    pub kind: ConfigFaultKind,
    pub key: Option<Key>,
}

impl ConfigFault {
    pub(crate) const MEMORY: ConfigFault = ConfigFault {
        kind: ConfigFaultKind::Memory,
        key: None,
    };

    pub(crate) const TEXT: ConfigFault = ConfigFault {
        kind: ConfigFaultKind::Text,
        key: None,
    };

    pub(crate) const UNKNOWN: ConfigFault = ConfigFault {
        kind: ConfigFaultKind::Unknown,
        key: None,
    };

    pub(crate) fn shape(key: Key) -> ConfigFault
        ensures { result ≡ shape key }
    {
        ConfigFault {
            kind: ConfigFaultKind::Shape,
            key: Some(key),
        }
    }

    pub(crate) fn range(key: Key) -> ConfigFault
        ensures { result ≡ range key }
    {
        ConfigFault {
            kind: ConfigFaultKind::Range,
            key: Some(key),
        }
    }
}

impl ConfigFaultKind {
    /// Its name, as in a line that reports the fault.
    pub fn name(self) -> &'static str
        ensures name { result.now ≡ kind_name self }
        ensures short { length result.now ≤ 7 }
    {
        match self {
            ConfigFaultKind::Text => "Text",
            ConfigFaultKind::Unknown => "Unknown",
            ConfigFaultKind::Shape => "Shape",
            ConfigFaultKind::Range => "Range",
            ConfigFaultKind::Memory => "Memory",
        }
    }
}

/// The kind, and the key if there is one: `Range policy.depth`.
impl fmt::Display for ConfigFault {
    ghost use Rattle.std.specs.Prelude.{Some};
    ghost use Rattle.settings.specs.ConfigFaults.{fault_text};

    ghost output = { λ fault. Some (fault_text fault) };

    fn fmt<W: fmt::Write>(&self, f: &mut fmt::Formatter<W>) -> fmt::Result {
        let kind = self.kind.name();
        match self.key {
            Some(key) => write!(f, "{kind} {key}"),
            None => f.write_str(kind),
        }
    }
}

impl Error for ConfigFault {}

impl From<AllocError> for ConfigFault {
    ghost use Rattle.std.specs.Prelude.{◌≡◌};
    ghost use Rattle.settings.specs.ConfigFaults.{out_of_memory};

    ghost from_gives = { λ _ fault. fault ≡ out_of_memory };

    fn from(_refused: AllocError) -> ConfigFault {
        ConfigFault::MEMORY
    }
}
