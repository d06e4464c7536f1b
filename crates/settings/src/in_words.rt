//! What is wrong with a document, in words.

ghost use Rattle.std.specs.Prelude.{◌≡◌, ◌++◌, None, OnOk, IfOk};
ghost use Rattle.std.specs.String.{string_bytes};
ghost use Rattle.toml.specs.View.{table_view};
ghost use Rattle.settings.specs.declared.keys.Key.TheVariants.{Floor};
ghost use Rattle.settings.specs.Keys.{all_keys, row_of};
ghost use Rattle.settings.specs.SettingsTable.{document_of};
ghost use Rattle.settings.specs.Documents.{misplaced_in};
ghost use Rattle.settings.specs.FaultWords.{document_words, edits, fault_words, fits_in, is_nearer};
ghost use Rattle.settings.specs.FaultWords.{key_words, kind_words, lists_words, misplaced_text, misplaced_words};
ghost use Rattle.settings.specs.FaultWords.{nearest_among, nearest_key, place_of, text_words, value_words};

use crate::config::{MAX_SETTINGS_BYTES, document_of};
use crate::document::misplaced_in;
use crate::keys::{Kind, Row, all_keys};
use crate::{ConfigFault, ConfigFaultKind, Key};
use std::alloc::{AllocError, Global};
use strsim::levenshtein;
use toml::Table;

/// How many characters have to be put in, taken out or changed for the name of this key.
fn edits(alloc: Global, name: &str, key: Key) -> Result<usize, AllocError>
    ensures { IfOk result (λ n. n ≡ edits name.now key) }
{
    levenshtein(alloc, name, key.name())
}

/// Whether a key may stand there: a table in the document, a key in its table.
fn fits_in(within: Option<Key>, key: Key) -> bool
    ensures { result ≡ fits_in within key }
{
    match within {
        None => key.is_table(),
        Some(holder) => !key.is_table() && key.table().name() == holder.name(),
    }
}

/// Whether a key is nearer than another to a name that stands within a key. One that may stand there is nearer than one
/// that may not, unless that takes two edits fewer; else the one with fewer edits is, and of as many the one with the
/// longer name, of which more is kept.
fn is_nearer(
    alloc: Global,
    within: Option<Key>,
    name: &str,
    key: Key,
    other: Key,
) -> Result<bool, AllocError>
    ensures { IfOk result (λ nearer. nearer ≡ is_nearer (within, name.now) key other) }
{
    let (one, two) = (edits(alloc, name, key)?, edits(alloc, name, other)?);
    match (fits_in(within, key), fits_in(within, other)) {
        (true, false) => Ok(one.saturating_sub(1) <= two),
        (false, true) => Ok(one < two.saturating_sub(1)),
        _ if one == two => Ok(other.name().len() < key.name().len()),
        _ => Ok(one < two),
    }
}

/// The nearest of all keys.
#[tactic(auto, unfolding(crate::specs::FaultWords::nearest_among))]
fn nearest_of_all(alloc: Global, within: Option<Key>, name: &str) -> Result<Key, AllocError>
    ensures { IfOk result (λ key. key ≡ nearest_among (within, name.now) Floor all_keys) }
{
    let keys = all_keys(alloc)?;
    let mut best = Key::Floor;
    for key in &keys {
        if is_nearer(alloc, within, name, *key, best)? {
            best = *key;
        }
    }
    Ok(best)
}

/// The key that is nearest to a name. Below a key that is no table there is none, and it is that key.
#[tactic(auto, unfolding(crate::specs::FaultWords::nearest_key))]
fn nearest_key(alloc: Global, within: Option<Key>, name: &str) -> Result<Key, AllocError>
    ensures { IfOk result (λ key. key ≡ nearest_key (within, name.now)) }
{
    match within {
        Some(holder) => {
            if holder.is_table() {
                nearest_of_all(alloc, within, name)
            } else {
                Ok(holder)
            }
        }
        None => nearest_of_all(alloc, within, name),
    }
}

/// Writes where a name stands in the document.
fn write_place(text: &mut String, within: Option<Key>, name: &str) -> Result<(), AllocError>
    ensures { OnOk result
        (string_bytes text.new ≡ string_bytes text.old ++ place_of (within, name.now)) }
{
    match within {
        None => text.push_str(name),
        Some(holder) => write!(text, "{holder}.{name}"),
    }
}

/// What is said of a name that may not stand within a key.
#[tactic(auto, unfolding(crate::specs::FaultWords::misplaced_text))]
fn misplaced_text(alloc: Global, within: Option<Key>, name: &str) -> Result<String, AllocError>
    ensures { IfOk result (λ text. string_bytes text ≡ misplaced_text (within, name.now)) }
{
    let nearest = nearest_key(alloc, within, name)?;
    let mut text = String::new(alloc);
    write_place(&mut text, within, name)?;
    write!(text, " is no key of the settings; the nearest is {nearest}")?;
    Ok(text)
}

/// What is said of the first key of a document that may not stand there.
fn misplaced_words(alloc: Global, document: &Table) -> Result<String, AllocError>
    ensures { IfOk result (λ text. string_bytes text
        ≡ misplaced_words (misplaced_in (table_view document.now) None)) }
{
    match misplaced_in(document, None) {
        None => Ok(String::new(alloc)),
        Some((within, name)) => misplaced_text(alloc, within, name),
    }
}

/// What kind of value is to stand at a key.
fn kind_words(key: Key) -> &'static str
    ensures { result.now ≡ kind_words (row_of key).kind }
{
    match key.row().kind {
        Kind::Table => "a table",
        Kind::Tables => "a list of tables: ",
        Kind::Text => "a text: ",
        Kind::Numbers(_) => "a list of integers: ",
        _ => "an integer: ",
    }
}

/// What is to stand at one key.
#[tactic(auto, unfolding(crate::specs::FaultWords::value_words))]
fn value_words(alloc: Global, key: Key) -> Result<String, AllocError>
    ensures { IfOk result (λ text. string_bytes text ≡ value_words key) }
{
    let Row { comment, scale, .. } = *key.row();
    format!(in alloc; "{key} is to be {}{comment}{scale}", kind_words(key))
}

/// What is said of the three lists of a floor, which don't fit together.
fn lists_words(
    alloc: Global,
    cuts: Key,
    workers: Key,
    capacities: Key,
) -> Result<String, AllocError>
    ensures { IfOk result (λ text. string_bytes text ≡ lists_words cuts workers capacities) }
{
    let cuts = value_words(alloc, cuts)?;
    let workers = value_words(alloc, workers)?;
    let capacities = value_words(alloc, capacities)?;
    format!(in alloc; "{cuts}; {workers}; {capacities}; and the three of one length")
}

/// What is said of a key at which something else stands.
fn key_words(alloc: Global, key: Key) -> Result<String, AllocError>
    ensures { IfOk result (λ text. string_bytes text ≡ key_words key) }
{
    match key.row().kind {
        Kind::Lists(cuts, workers, capacities) => lists_words(alloc, cuts, workers, capacities),
        _ => value_words(alloc, key),
    }
}

/// What is said of bytes that are no document.
fn text_words(bytes: &[u8]) -> &'static str
    ensures { result.now ≡ text_words bytes.now }
{
    if bytes.len() > MAX_SETTINGS_BYTES {
        "the settings have more than 65536 bytes"
    } else {
        "the settings are no TOML document"
    }
}

/// What is said of a document with a key that may not stand there; nothing of another one.
fn document_words(alloc: Global, bytes: &[u8]) -> Result<String, AllocError>
    ensures { IfOk result (λ text. string_bytes text ≡ document_words (document_of bytes.now)) }
{
    match document_of(alloc, bytes) {
        Ok(document) => misplaced_words(alloc, &document),
        Err(fault) if fault.kind == ConfigFaultKind::Memory => Err(AllocError),
        Err(_) => Ok(String::new(alloc)),
    }
}

/// What is said in words of a fault of these bytes (docs/FORMATS.md, "Settings"): what is to stand at its key, or which
/// key may not stand where it does and which one is nearest. A name stands there as the document has it. Of a fault
/// that isn't the document's nothing is said.
///
/// # Errors
///
/// Memory ran out.
pub fn fault_words(alloc: Global, bytes: &[u8], fault: ConfigFault) -> Result<String, AllocError>
    ensures { IfOk result (λ text. string_bytes text ≡ fault_words bytes.now fault) }
{
    match (fault.kind, fault.key) {
        (ConfigFaultKind::Text, _) => String::from_str(alloc, text_words(bytes)),
        (ConfigFaultKind::Unknown, _) => document_words(alloc, bytes),
        (ConfigFaultKind::Shape | ConfigFaultKind::Range, Some(key)) => key_words(alloc, key),
        _ => Ok(String::new(alloc)),
    }
}
