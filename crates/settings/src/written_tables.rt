//! The pools and the routes of a document written out.

ghost use Rattle.std.specs.Prelude.{◌≡◌, ◌++◌, ◌/◌, ◌%◌, ◌<◌, ◌≤◌, codes, decimal, encode_utf8, IfOk, OnOk};
ghost use Rattle.std.specs.Option.{ForSome, option_map};
ghost use Rattle.std.specs.Str.{chars};
ghost use Rattle.std.specs.String.{string_bytes};
ghost use Rattle.toml.specs.Data.{get_member};
ghost use Rattle.toml.specs.View.{array_view, table_view, view};
ghost use Rattle.cost_model.specs.Services.{MAX_DELAY};
ghost use Rattle.settings.specs.Keys.{IsOfEach, name_of, row_of};
ghost use Rattle.settings.specs.WrittenOut.{hexadecimal, items_text, named_text, numbers_text, own_number, own_text};
ghost use Rattle.settings.specs.WrittenOut.{pool_text, quoted, quoted_char};
ghost use Rattle.settings.specs.WrittenOut.{route_text, table_text, tables_text, text_in};

use crate::Key;
use crate::document::number_in;
use crate::pools::{each_number, member_of};
use crate::written_out::write_name;
use std::alloc::{AllocError, Global};
use toml::value::Array;
use toml::{Table, Value};

/// The sign of a hexadecimal digit.
fn hexadecimal(digit: u8) -> char
    requires { digit < 16 }
    ensures { result ≡ hexadecimal digit }
{
    if digit < 10 {
        char::from(b'0' + digit)
    } else {
        char::from(b'a' + (digit - 10))
    }
}

/// Writes a control character of ASCII by its number.
fn write_control(text: &mut String, code: u8) -> Result<(), AllocError>
    ensures { OnOk result (string_bytes text.new ≡ string_bytes text.old
        ++ (codes "\\u00" ++ encode_utf8 (hexadecimal (code / 16)) ++ encode_utf8 (hexadecimal (code % 16)))) }
{
    text.push_str("\\u00")?;
    text.push(hexadecimal(code / 16))?;
    text.push(hexadecimal(code % 16))
}

/// Writes a character of a text between quotes.
fn write_char(text: &mut String, c: char) -> Result<(), AllocError>
    ensures { OnOk result (string_bytes text.new ≡ string_bytes text.old ++ quoted_char c) }
{
    if c == '"' || c == '\\' {
        text.push_str("\\")?;
        return text.push(c);
    }
    match u8::try_from(u32::from(c)) {
        Ok(code) if code < 32 || code == 127 => write_control(text, code),
        _ => text.push(c),
    }
}

/// The characters of a text.
fn chars_of(alloc: Global, text: &str) -> Result<Vec<char>, AllocError>
    ensures { IfOk result (λ all. all.items ≡ chars text.now) }
{
    text.chars().collect(alloc)
}

/// Writes a text between quotes.
fn write_quoted(alloc: Global, text: &mut String, own: &str) -> Result<(), AllocError>
    ensures { OnOk result (string_bytes text.new ≡ string_bytes text.old ++ quoted own.now) }
{
    let characters = chars_of(alloc, own)?;
    text.push_str("\"")?;
    for c in &characters {
        write_char(text, *c)?;
    }
    text.push_str("\"")
}

/// Writes the number at a key of a table below its comment; without a default it is there.
fn write_number(
    text: &mut String,
    table: &Table,
    key: Key,
    default: Option<u64>,
) -> Result<(), AllocError>
    requires { ForSome default (λ n. IsOfEach (row_of key).kind n) }
    ensures { OnOk result (string_bytes text.new ≡ string_bytes text.old
        ++ own_number (table_view table.now) key default) }
{
    let number = each_number(table, key, default).unwrap_or(0);
    write_name(text, key)?;
    write!(text, "{number}\n")
}

/// The text of a value, empty where it is none.
fn text_in(value: Option<&Value>) -> &str
    ensures { result.now ≡ text_in (option_map (λ v. view v.now) value.entry) }
{
    match value {
        Some(value) => value.as_str().unwrap_or(""),
        None => "",
    }
}

/// Writes the text at a key of a table below its comment.
fn write_text(alloc: Global, text: &mut String, table: &Table, key: Key) -> Result<(), AllocError>
    ensures { OnOk result
        (string_bytes text.new ≡ string_bytes text.old ++ own_text (table_view table.now) key) }
{
    write_name(text, key)?;
    write_quoted(alloc, text, text_in(member_of(table, key)))?;
    text.push_str("\n")
}

/// Writes a pool.
#[tactic(auto, unfolding(crate::specs::WrittenOut::pool_text))]
fn write_pool(alloc: Global, text: &mut String, table: &Table) -> Result<(), AllocError>
    ensures { OnOk result
        (string_bytes text.new ≡ string_bytes text.old ++ pool_text (table_view table.now)) }
{
    let name = Key::Pool.name();
    write!(text, "\n[[{name}]]\n")?;
    write_text(alloc, text, table, Key::PoolName)?;
    write_number(text, table, Key::PoolServers, None)
}

/// Writes the pool that a route names, if it names one.
#[tactic(auto, unfolding(crate::specs::WrittenOut::named_text))]
fn write_if_named(alloc: Global, text: &mut String, table: &Table) -> Result<(), AllocError>
    ensures { OnOk result
        (string_bytes text.new ≡ string_bytes text.old ++ named_text (table_view table.now)) }
{
    match member_of(table, Key::RoutePool) {
        Some(_) => write_text(alloc, text, table, Key::RoutePool),
        None => Ok(()),
    }
}

/// Writes the integers of a route.
#[tactic(auto, unfolding(crate::specs::WrittenOut::numbers_text))]
fn write_numbers(text: &mut String, delay: u64, table: &Table) -> Result<(), AllocError>
    requires { delay ≤ MAX_DELAY }
    ensures { OnOk result
        (string_bytes text.new ≡ string_bytes text.old ++ numbers_text delay (table_view table.now)) }
{
    write_number(text, table, Key::RouteCost, None)?;
    write_number(text, table, Key::RouteKib, Some(0))?;
    write_number(text, table, Key::RouteDelay, Some(delay))
}

/// Writes a route with all its keys.
#[tactic(auto, unfolding(crate::specs::WrittenOut::route_text))]
fn write_route(
    alloc: Global,
    text: &mut String,
    delay: u64,
    table: &Table,
) -> Result<(), AllocError>
    requires { delay ≤ MAX_DELAY }
    ensures { OnOk result
        (string_bytes text.new ≡ string_bytes text.old ++ route_text delay (table_view table.now)) }
{
    let name = Key::Route.name();
    write!(text, "\n[[{name}]]\n")?;
    write_text(alloc, text, table, Key::RoutePrefix)?;
    write_numbers(text, delay, table)?;
    write_if_named(alloc, text, table)
}

/// Writes a pool or a route, by the list's key.
fn write_table(
    alloc: Global,
    text: &mut String,
    list: Key,
    delay: u64,
    table: &Table,
) -> Result<(), AllocError>
    requires { delay ≤ MAX_DELAY }
    ensures { OnOk result
        (string_bytes text.new ≡ string_bytes text.old ++ table_text list delay (table_view table.now)) }
{
    match list {
        Key::Pool => write_pool(alloc, text, table),
        _ => write_route(alloc, text, delay, table),
    }
}

/// Writes the pools or the routes of a list, in their order.
fn write_items(
    alloc: Global,
    text: &mut String,
    list: Key,
    delay: u64,
    items: &Array,
) -> Result<(), AllocError>
    requires { delay ≤ MAX_DELAY }
    ensures { OnOk result
        (string_bytes text.new ≡ string_bytes text.old ++ items_text list delay (array_view items.now)) }
{
    'items: for item in items {
        if let Some(table) = item.as_table() {
            write_table(alloc, text, list, delay, table)?;
        }
    }
    Ok(())
}

/// Writes the pools or the routes of a document, in their order, by the list's key.
#[tactic(auto, unfolding(crate::specs::WrittenOut::tables_text))]
pub(crate) fn write_tables(
    alloc: Global,
    text: &mut String,
    document: &Table,
    list: Key,
) -> Result<(), AllocError>
    ensures { OnOk result
        (string_bytes text.new ≡ string_bytes text.old ++ tables_text (table_view document.now) list) }
{
    let Some(value) = member_of(document, list) else {
        return Ok(());
    };
    match value.as_array() {
        Some(items) => write_items(alloc, text, list, number_in(document, Key::Delay), items),
        None => Ok(()),
    }
}
