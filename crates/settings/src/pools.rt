//! The pools of a document: servers that work for the routes that name them.

ghost use Rattle.std.specs.Prelude.{◌≡◌, ◌≤◌, All, IfOk, IfSome, IsOk, length};
ghost use Rattle.std.specs.Option.{option_map, ForSome};
ghost use Rattle.toml.specs.Data.{as_table, get_member};
ghost use Rattle.toml.specs.View.{array_view, table_view, view};
ghost use Rattle.cost_model.specs.Services.{MAX_POOLS};
ghost use Rattle.settings.specs.ConfigFaults.{IsAnswer, Shows};
ghost use Rattle.settings.specs.Keys.{IsOfEach, name_of, row_of};
ghost use Rattle.settings.specs.Pools.{each_number, each_pool, each_used, has_name, named_pool, own_name, pool_in};
ghost use Rattle.settings.specs.Pools.{is_text, is_used, number_in_list, pool_count, pool_number, pools_of};

use crate::document::number_of;
use crate::keys::Kind;
use crate::{ConfigFault, Key};
use cost_model::{MAX_POOLS, Pools, Route};
use std::alloc::{AllocError, Global};
use toml::value::Array;
use toml::{Table, Value};

/// What a table has at a key.
pub(crate) fn member_of(table: &Table, key: Key) -> Option<&Value>
    ensures { option_map (λ v. view v.now) result
        ≡ get_member (name_of key) (table_view table.now) }
{
    table.get(key.name())
}

/// The integer of a table of a list at a key, or its default where it is left out.
///
/// # Errors
///
/// `Shape` where the value isn't an integer, or is left out without a default; `Range` where it is outside its range.
pub(crate) fn each_number(table: &Table, key: Key, default: Option<u64>) -> Result<u64, ConfigFault>
    requires { ForSome default (λ n. IsOfEach (row_of key).kind n) }
    ensures value { result ≡ each_number (table_view table.now) key default }
    ensures within { IfOk result (λ n. IsOfEach (row_of key).kind n) }
{
    let Kind::Each(least, greatest) = key.row().kind else {
        return Err(ConfigFault::shape(key));
    };
    match (member_of(table, key), default) {
        (Some(value), _) => number_of(key, least, greatest, value),
        (None, Some(default)) => Ok(default),
        (None, None) => Err(ConfigFault::shape(key)),
    }
}

/// Whether a value is this text.
fn is_text(name: &str, value: Option<&Value>) -> bool
    ensures { result ≡ is_text name.now (option_map (λ v. view v.now) value.entry) }
{
    let Some(value) = value else {
        return false;
    };
    match value.as_str() {
        Some(text) => text == name,
        None => false,
    }
}

/// Whether a pool has this name.
fn has_name(name: &str, pool: &Value) -> bool
    ensures { result ≡ has_name name.now (as_table (view pool.now)) }
{
    match pool.as_table() {
        Some(table) => is_text(name, member_of(table, Key::PoolName)),
        None => false,
    }
}

/// The number of the first of these pools that has this name, from 1 on.
fn pool_number(pools: &Array, name: &str) -> Option<usize>
    ensures number { result ≡ pool_number 1 (array_view pools.now) name.now }
    ensures range { IfSome result (λ number. number ≤ length pools.now.items) }
{
    'pools: for (index, pool) in pools.iter().enumerate() {
        if has_name(name, pool) {
            return Some(index + 1);
        }
    }
    None
}

/// Sees that a pool has a name that no pool before it has.
fn own_name(pools: &Array, number: usize, name: Option<&Value>) -> Result<(), ConfigFault>
    ensures { IsAnswer
        (own_name (array_view pools.now) number (option_map (λ v. view v.now) name.entry)) result }
{
    let Some(value) = name else {
        return Err(ConfigFault::shape(Key::PoolName));
    };
    let Some(name) = value.as_str() else {
        return Err(ConfigFault::shape(Key::PoolName));
    };
    match pool_number(pools, name) {
        Some(first) if first == number => Ok(()),
        _ => Err(ConfigFault::range(Key::PoolName)),
    }
}

/// The servers of the pool of this number.
fn pool_in(pools: &Array, number: usize, pool: &Value) -> Result<u64, ConfigFault>
    ensures servers { IsAnswer
        (pool_in (array_view pools.now) number (as_table (view pool.now))) result }
    ensures within { IfOk result (λ n. IsOfEach (row_of Key.PoolServers).kind n) }
{
    let Some(table) = pool.as_table() else {
        return Err(ConfigFault::shape(Key::Pool));
    };
    own_name(pools, number, member_of(table, Key::PoolName))?;
    each_number(table, Key::PoolServers, None)
}

/// The servers of each pool of a list, in their order.
fn each_pool(alloc: Global, pools: &Array) -> Result<Vec<u64>, ConfigFault>
    ensures servers { Shows (λ servers. servers.items)
        (each_pool (array_view pools.now) 1 (array_view pools.now)) result }
    ensures len { IfOk result (λ servers. length servers.items ≡ length pools.now.items) }
    ensures each { IfOk result
        (λ servers. All (λ n. IsOfEach (row_of Key.PoolServers).kind n) servers.items) }
{
    let mut servers = Vec::new(alloc);
    'pools: for (index, pool) in pools.iter().enumerate() {
        let own = pool_in(pools, index + 1, pool)?;
        servers.push(own).map_err(AllocError::from)?;
    }
    Ok(servers)
}

/// The pools of a document; none, where it says nothing of them.
///
/// # Errors
///
/// `Shape` where they are no list of tables, `Range` where there are more than 16, the fault of the first that has one,
/// or `Memory`.
#[tactic(auto, using(crate::proofs::Counting::counted), unfolding(crate::specs::Pools::pools_of))]
pub(crate) fn pools_of(alloc: Global, document: &Table) -> Result<Pools, ConfigFault>
    ensures pools { IsAnswer (pools_of (table_view document.now)) result }
    ensures count { IfOk result (λ pools. length pools ≡ pool_count (table_view document.now)) }
    ensures few { IsOk result → pool_count (table_view document.now) ≤ MAX_POOLS }
{
    let Some(value) = member_of(document, Key::Pool) else {
        return Ok(Pools::none());
    };
    let Some(pools) = value.as_array() else {
        return Err(ConfigFault::shape(Key::Pool));
    };
    if pools.len() > MAX_POOLS {
        return Err(ConfigFault::range(Key::Pool));
    }
    Ok(Pools::new(each_pool(alloc, pools)?))
}

/// The number of the first pool of a document that has this name.
#[tactic(auto, using(crate::proofs::Counting::counted))]
fn number_in_list(document: &Table, name: &str) -> Option<usize>
    ensures number { result
        ≡ number_in_list (get_member (name_of Key.Pool) (table_view document.now)) name.now }
    ensures range { IfSome result (λ number. number ≤ pool_count (table_view document.now)) }
{
    let Some(value) = member_of(document, Key::Pool) else {
        return None;
    };
    match value.as_array() {
        Some(pools) => pool_number(pools, name),
        None => None,
    }
}

/// The number of the pool that a route names; 0 where it names none.
///
/// # Errors
///
/// `Shape` where the value is no text, `Range` where no pool has this name.
pub(crate) fn named_pool(document: &Table, route: &Table) -> Result<u8, ConfigFault>
    requires { pool_count (table_view document.now) ≤ MAX_POOLS }
    ensures number { result ≡ named_pool (get_member (name_of Key.Pool) (table_view document.now))
        (get_member (name_of Key.RoutePool) (table_view route.now)) }
    ensures there { IfOk result (λ number. number ≤ pool_count (table_view document.now)) }
{
    let Some(value) = member_of(route, Key::RoutePool) else {
        return Ok(0);
    };
    let Some(name) = value.as_str() else {
        return Err(ConfigFault::shape(Key::RoutePool));
    };
    match number_in_list(document, name) {
        Some(number) => Ok(number as u8),
        None => Err(ConfigFault::range(Key::RoutePool)),
    }
}

/// Whether a route names the pool of this number.
fn is_used(routes: &[Route], number: usize) -> bool
    ensures { result ≡ is_used routes.now number }
{
    routes
        .iter()
        .any(|route| usize::from(route.pool()) == number)
}

/// Sees that each pool is named by a route.
///
/// # Errors
///
/// `Range` of `pool.name`.
pub(crate) fn each_used(pools: &[u64], routes: &[Route]) -> Result<(), ConfigFault>
    ensures { result ≡ each_used 1 pools.now routes.now }
{
    for (index, _) in pools.iter().enumerate() {
        if !is_used(routes, index + 1) {
            return Err(ConfigFault::range(Key::PoolName));
        }
    }
    Ok(())
}
