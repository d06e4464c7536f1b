//! A fault, and what is said in words after its line.

use faults::{Fault, shown_name, words_line};
use settings::ConfigFault;
use std::alloc::{AllocError, Global};
use std::io;

/// A fault, and one line of words after its own: which file it is of, by the name that was given, and what is wrong
/// with it. Without memory for the words there are none, and the fault's own line alone reports it.
#[derive(Drop)]
pub struct Explained {
    pub fault: Fault,
    pub words: Option<Vec<u8>>,
}

impl From<Fault> for Explained {
    fn from(fault: Fault) -> Explained {
        Explained { fault, words: None }
    }
}

impl From<AllocError> for Explained {
    fn from(refused: AllocError) -> Explained {
        Explained::from(Fault::from(refused))
    }
}

/// The line that says this of a file of this name.
fn line_on(alloc: Global, name: &str, what: &str) -> Result<Vec<u8>, AllocError> {
    let name = shown_name(alloc, name)?;
    let line = format!(in alloc; "haboob: {name}: {what}\n")?;
    Ok(line.into_bytes())
}

/// The line that gives the system's reason.
fn line_of(alloc: Global, name: &str, error: &io::Error) -> Result<Vec<u8>, AllocError> {
    let reason = format!(in alloc; "{error}")?;
    line_on(alloc, name, reason.as_str())
}

impl Explained {
    /// A fault of the file of this name, of which this is to be said.
    pub fn on(alloc: Global, fault: Fault, name: &str, what: &str) -> Explained {
        Explained {
            fault,
            words: line_on(alloc, name, what).ok(),
        }
    }

    /// A fault of a settings document.
    pub fn in_document(alloc: Global, document: &[u8], fault: ConfigFault) -> Explained {
        Explained {
            fault: Fault::Settings(fault),
            words: words_line(alloc, document, fault).ok(),
        }
    }

    /// A fault of the file of this name, for the system's reason.
    pub fn by(alloc: Global, fault: Fault, name: &str, error: &io::Error) -> Explained {
        Explained {
            fault,
            words: line_of(alloc, name, error).ok(),
        }
    }

    /// The fault of a run that writes a table, of one that writes replies.
    pub fn of_rows(self) -> Explained {
        let Explained { fault, words } = self;
        Explained {
            fault: fault.of_rows(),
            words,
        }
    }
}
