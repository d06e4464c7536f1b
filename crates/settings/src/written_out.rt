//! Settings written out as a document: each table and key with its comment.

ghost use Rattle.std.specs.Prelude.{◌≡◌, ◌++◌, codes, false, Ok, Err, OnOk, IfOk, MatchResult};
ghost use Rattle.std.specs.String.{string_bytes};
ghost use Rattle.toml.specs.View.{table_view};
ghost use Rattle.settings.specs.ConfigFaults.{is_memory};
ghost use Rattle.settings.specs.Keys.{name_of, row_of};
ghost use Rattle.settings.specs.SettingsTable.{settings_of, settings_read};
ghost use Rattle.settings.specs.WrittenOut.{AreSettings, document_text, list_text, row_text, settings_text, text_of};
ghost use Rattle.settings.specs.WrittenOut.{value_text, whole_text};

use crate::config::{document_of, settings_of};
use crate::document::{number_in, numbers_in};
use crate::keys::{Kind, Row, all_keys};
use crate::written_tables::write_tables;
use crate::{ConfigFault, Key};
use std::alloc::{AllocError, Global};
use toml::Table;

/// The first line.
const HEADING: &str =
    "# Each key with the value that is in force, below its unit, its range and its meaning.\n";

/// Writes a list of numbers, as `[1, 2, 3]`.
fn write_list(text: &mut String, numbers: &[usize]) -> Result<(), AllocError>
    ensures { OnOk result (string_bytes text.new ≡ string_bytes text.old ++ list_text numbers.now) }
{
    let Some((first, others)) = numbers.split_first() else {
        return text.push_str("[]");
    };
    write!(text, "[{first}")?;
    for number in others {
        write!(text, ", {number}")?;
    }
    text.push_str("]")
}

/// Writes the value of a key; nothing, where there is none to be.
fn write_value(
    alloc: Global,
    text: &mut String,
    document: &Table,
    key: Key,
) -> Result<(), AllocError>
    ensures { OnOk result
        (string_bytes text.new ≡ string_bytes text.old ++ value_text (table_view document.now) key) }
{
    match key.row().kind {
        Kind::Number(_, _, _) => write!(text, "{}", number_in(document, key)),
        Kind::Numbers(_) => write_list(text, &numbers_in(alloc, document, key)?),
        _ => Ok(()),
    }
}

/// Writes the comment of a key, its name, and what stands before its value.
pub(crate) fn write_name(text: &mut String, key: Key) -> Result<(), AllocError>
    ensures { OnOk result (string_bytes text.new
        ≡ string_bytes text.old ++ (codes "# " ++ (row_of key).comment ++ codes "\n" ++ name_of key ++ codes " = ")) }
{
    let Row { name, comment, .. } = *key.row();
    write!(text, "# {comment}\n{name} = ")
}

/// Writes the line of a table, or a key with its value below its comment; nothing of a list of tables.
#[tactic(auto, unfolding(crate::specs::WrittenOut::row_text))]
fn write_row(alloc: Global, text: &mut String, document: &Table, key: Key) -> Result<(), AllocError>
    ensures { OnOk result
        (string_bytes text.new ≡ string_bytes text.old ++ row_text (table_view document.now) key) }
{
    let Row { name, kind, .. } = *key.row();
    match kind {
        Kind::Table => write!(text, "\n[{name}]\n"),
        Kind::Number(_, _, _) | Kind::Numbers(_) => {
            write_name(text, key)?;
            write_value(alloc, text, document, key)?;
            text.push_str("\n")
        }
        _ => Ok(()),
    }
}

/// The document of the values in force, with all tables and keys that it may have.
#[tactic(auto, unfolding(crate::specs::WrittenOut::document_text))]
fn document_text(alloc: Global, document: &Table) -> Result<String, AllocError>
    ensures { IfOk result (λ text. string_bytes text ≡ document_text (table_view document.now)) }
{
    let mut text = String::from_str(alloc, HEADING)?;
    let keys = all_keys(alloc)?;
    for key in &keys {
        write_row(alloc, &mut text, document, *key)?;
    }
    Ok(text)
}

/// The same, and its pools and routes.
fn whole_text(alloc: Global, document: &Table) -> Result<String, AllocError>
    ensures { IfOk result (λ text. string_bytes text ≡ whole_text (table_view document.now)) }
{
    let mut text = document_text(alloc, document)?;
    write_tables(alloc, &mut text, document, Key::Pool)?;
    write_tables(alloc, &mut text, document, Key::Route)?;
    Ok(text)
}

/// The settings of a document, written out.
fn text_of(alloc: Global, document: &Table) -> Result<String, ConfigFault>
    ensures { MatchResult result
        (λ text. text_of (table_view document.now) ≡ Ok (string_bytes text))
        (λ fault. is_memory fault ≡ false → settings_of (table_view document.now) ≡ Err fault) }
{
    settings_of(alloc, document)?;
    Ok(whole_text(alloc, document)?)
}

/// The settings of a document (docs/FORMATS.md, "Settings"), written out as a document in which each key stands with
/// the value that is in force, below a comment with its unit, its range and its meaning. No bytes give the default
/// settings.
///
/// # Errors
///
/// Those of [`read_settings`](crate::read_settings): the first fault of the document, or `Memory`.
pub fn settings_text(alloc: Global, bytes: &[u8]) -> Result<String, ConfigFault>
    ensures text { MatchResult result
        (λ text. settings_text bytes.now ≡ Ok (string_bytes text))
        (λ fault. is_memory fault ≡ false → settings_read bytes.now ≡ Err fault) }
    ensures settings { IfOk result (λ _. AreSettings bytes.now) }
{
    let document = document_of(alloc, bytes)?;
    text_of(alloc, &document)
}
