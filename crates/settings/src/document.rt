//! The keys that a document may have, and the numbers that stand there.

ghost use Rattle.std.specs.Prelude.{◌≡◌, ◌≤◌, Ok, Err, IfOk, MatchResult, option_map};
ghost use Rattle.toml.specs.View.{view, array_view, table_view};
ghost use Rattle.settings.specs.Keys.{IsWithin, all_keys, key_at, row_of};
ghost use Rattle.settings.specs.Documents.{fits, found_value, in_policy, misplaced_of, misplaced_among, misplaced_in};
ghost use Rattle.settings.specs.Documents.{naturals, number, number_in, number_of, numbers, numbers_in, value_at};
ghost use Rattle.settings.specs.Documents.{values_fit};
ghost use Rattle.settings.specs.ConfigFaults.{IsAnswer, Shows};

use crate::keys::{Kind, all_keys, keys_in};
use crate::{ConfigFault, ConfigFaultKind, Key, PolicyTable};
use std::alloc::{AllocError, Global};
use toml::value::Array;
use toml::{Table, Value};

/// The key of this name in a table, if it may stand there.
fn key_at(table: Option<Key>, name: &str) -> Option<Key>
    ensures { result ≡ key_at table name.now }
{
    keys_in(table)
        .iter()
        .copied()
        .find(|key| key.name() == name)
}

/// What stands where it may not: the key that holds it (none, in the document itself), and its name.
pub(crate) type Misplaced<'a> = (Option<Key>, &'a str);

/// The first key of the tables in a value that may not stand there. The value stands at the key `within`.
#[cycle(misplaced)]
fn misplaced_of(value: &Value, within: Option<Key>) -> Option<Misplaced<'_>>
    ensures { option_map (λ m. (m.0, m.1.now)) result
        ≡ misplaced_of (view value.now) within }
{
    match value {
        Value::Array(items) => misplaced_among(items, within),
        Value::Table(members) => misplaced_in(members, within),
        _ => None,
    }
}

#[cycle(misplaced)]
fn misplaced_among(items: &Array, within: Option<Key>) -> Option<Misplaced<'_>>
    ensures { option_map (λ m. (m.0, m.1.now)) result
        ≡ misplaced_among (array_view items.now) within }
{
    'items: for item in items {
        if let Some(misplaced) = misplaced_of(item, within) {
            return Some(misplaced);
        }
    }
    None
}

/// The same of a table; without a key, of a whole document.
#[cycle(misplaced)]
pub(crate) fn misplaced_in(members: &Table, within: Option<Key>) -> Option<Misplaced<'_>>
    ensures { option_map (λ m. (m.0, m.1.now)) result
        ≡ misplaced_in (table_view members.now) within }
{
    'members: for (name, value) in members.iter() {
        let Some(key) = key_at(within, name.as_str()) else {
            return Some((within, name.as_str()));
        };
        if let Some(misplaced) = misplaced_of(value, Some(key)) {
            return Some(misplaced);
        }
    }
    None
}

/// What a document has at a key.
///
/// # Errors
///
/// `Shape` of the key's table, where something else stands in its place.
fn value_at<'a>(document: &'a Table, key: Key) -> Result<Option<&'a Value>, ConfigFault>
    ensures { MatchResult result
        (λ found. value_at (table_view document.now) key ≡ Ok (option_map (λ v. view v.now) found))
        (λ fault. value_at (table_view document.now) key ≡ Err fault) }
{
    let holder = key.table();
    let Some(value) = document.get(holder.name()) else {
        return Ok(None);
    };
    match value.as_table() {
        Some(table) => Ok(table.get(key.name())),
        None => Err(ConfigFault::shape(holder)),
    }
}

/// The key of `policy` that holds where a tier leaves this one out.
fn in_policy(key: Key) -> Key
    ensures { result ≡ in_policy key }
{
    match key {
        Key::InPolicy(_, key) => Key::InPolicy(PolicyTable::Policy, key),
        _ => key,
    }
}

/// What holds at a key, if the document says it: what a tier leaves out is as `policy` has it.
///
/// # Errors
///
/// `Shape` of the key's table, where something else stands in its place.
fn found_value<'a>(document: &'a Table, key: Key) -> Result<Option<&'a Value>, ConfigFault>
    ensures { MatchResult result
        (λ found. found_value (table_view document.now) key ≡ Ok (option_map (λ v. view v.now) found))
        (λ fault. found_value (table_view document.now) key ≡ Err fault) }
{
    match value_at(document, key)? {
        Some(value) => Ok(Some(value)),
        None => value_at(document, in_policy(key)),
    }
}

/// The integer at a key, or its default where the document doesn't say it.
///
/// # Errors
///
/// `Shape` where the value isn't an integer, `Range` where it is outside the key's range.
fn number(document: &Table, key: Key) -> Result<u64, ConfigFault>
    ensures value { result ≡ number (table_view document.now) key }
    ensures within { IfOk result (λ n. IsWithin (row_of key).kind n) }
{
    let Kind::Number(default, least, greatest) = key.row().kind else {
        return Err(ConfigFault::shape(key));
    };
    let Some(value) = found_value(document, key)? else {
        return Ok(default);
    };
    number_of(key, least, greatest, value)
}

/// The integer that a value at a key is.
///
/// # Errors
///
/// `Shape` where it isn't one, `Range` where it is outside this range.
pub(crate) fn number_of(
    key: Key,
    least: u64,
    greatest: u64,
    value: &Value,
) -> Result<u64, ConfigFault>
    ensures value { result ≡ number_of key least greatest (view value.now) }
    ensures within { IfOk result (λ n. (least ≤ n) × (n ≤ greatest)) }
{
    let Some(integer) = value.as_integer() else {
        return Err(ConfigFault::shape(key));
    };
    match u64::try_from(integer) {
        Ok(number) if least <= number && number <= greatest => Ok(number),
        _ => Err(ConfigFault::range(key)),
    }
}

/// The integers at a key, or their default where the document doesn't say them. One below 0 becomes 0, which no list of
/// a floor may have either.
///
/// # Errors
///
/// `Shape` where the value isn't a list of integers, or `Memory`.
fn numbers(alloc: Global, document: &Table, key: Key) -> Result<Vec<usize>, ConfigFault>
    ensures { Shows (λ ns. ns.items) (numbers (table_view document.now) key) result }
{
    let Kind::Numbers(default) = key.row().kind else {
        return Err(ConfigFault::shape(key));
    };
    let Some(value) = found_value(document, key)? else {
        return Ok(Vec::from_slice(alloc, default)?);
    };
    let Some(items) = value.as_array() else {
        return Err(ConfigFault::shape(key));
    };
    naturals(alloc, key, items)
}

fn naturals(alloc: Global, key: Key, items: &Array) -> Result<Vec<usize>, ConfigFault>
    ensures { Shows (λ ns. ns.items) (naturals key (array_view items.now)) result }
{
    let mut numbers = Vec::new(alloc);
    'items: for item in items {
        let Some(integer) = item.as_integer() else {
            return Err(ConfigFault::shape(key));
        };
        let number = usize::try_from(integer).unwrap_or(0);
        numbers.push(number).map_err(AllocError::from)?;
    }
    Ok(numbers)
}

/// Whether the value of a key fits it.
#[tactic(auto, unfolding(crate::specs::Documents::fits))]
fn fits(alloc: Global, document: &Table, key: Key) -> Result<(), ConfigFault>
    ensures { IsAnswer (fits (table_view document.now) key) result }
{
    match key.row().kind {
        Kind::Number(_, _, _) => {
            number(document, key)?;
            Ok(())
        }
        Kind::Numbers(_) => {
            numbers(alloc, document, key)?;
            Ok(())
        }
        _ => Ok(()),
    }
}

/// Whether the value of each key does.
///
/// # Errors
///
/// The fault of the first key whose value doesn't, or `Memory`.
pub(crate) fn values_fit(alloc: Global, document: &Table) -> Result<(), ConfigFault>
    ensures { IsAnswer (values_fit (table_view document.now) all_keys) result }
{
    let keys = all_keys(alloc)?;
    for key in &keys {
        fits(alloc, document, *key)?;
    }
    Ok(())
}

/// The integer of a key: as it stands in the document, and its default where there is none that fits.
#[tactic(auto, unfolding(crate::specs::Documents::number_in))]
pub(crate) fn number_in(document: &Table, key: Key) -> u64
    ensures value { result ≡ number_in (table_view document.now) key }
    ensures within { IsWithin (row_of key).kind result }
{
    match number(document, key) {
        Ok(number) => number,
        Err(_) => key.default(),
    }
}

/// The same of a list of integers.
///
/// # Errors
///
/// Memory ran out.
#[tactic(auto, unfolding(crate::specs::Documents::numbers_in))]
pub(crate) fn numbers_in(
    alloc: Global,
    document: &Table,
    key: Key,
) -> Result<Vec<usize>, AllocError>
    ensures { IfOk result (λ ns. ns.items ≡ numbers_in (table_view document.now) key) }
{
    match numbers(alloc, document, key) {
        Ok(numbers) => Ok(numbers),
        Err(fault) if fault.kind == ConfigFaultKind::Memory => Err(AllocError),
        Err(_) => Vec::from_slice(alloc, key.defaults()),
    }
}
