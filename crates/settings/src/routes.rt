//! The routes of a document.

ghost use Rattle.std.specs.Prelude.{◌≡◌, ◌≤◌, All, IfOk, length};
ghost use Rattle.toml.specs.Data.{as_table, get_member};
ghost use Rattle.toml.specs.View.{array_view, table_view, view};
ghost use Rattle.cost_model.specs.Services.{MAX_POOLS, MAX_ROUTES};
ghost use Rattle.settings.specs.ConfigFaults.{IsAnswer, Shows};
ghost use Rattle.settings.specs.Keys.{name_of};
ghost use Rattle.settings.specs.Pools.{pool_count};
ghost use Rattle.settings.specs.Routes.{each_route, prefix_in, route_in, routes_of};

use crate::document::number_in;
use crate::pools::{each_number, member_of, named_pool};
use crate::{ConfigFault, Key};
use cost_model::{MAX_ROUTES, Prefix, Route, Routes};
use std::alloc::{AllocError, Global};
use toml::value::Array;
use toml::{Table, Value};

/// The segments of a route's prefix.
///
/// # Errors
///
/// `Shape` where it is left out or no text, `Range` where no prefix is written so, or `Memory`.
fn prefix_in(alloc: Global, table: &Table) -> Result<Prefix, ConfigFault>
    ensures { IsAnswer
        (prefix_in (get_member (name_of Key.RoutePrefix) (table_view table.now))) result }
{
    let Some(value) = member_of(table, Key::RoutePrefix) else {
        return Err(ConfigFault::shape(Key::RoutePrefix));
    };
    let Some(text) = value.as_str() else {
        return Err(ConfigFault::shape(Key::RoutePrefix));
    };
    match Prefix::read(alloc, text.as_bytes())? {
        Some(prefix) => Ok(prefix),
        None => Err(ConfigFault::range(Key::RoutePrefix)),
    }
}

/// The route of one value of the list.
fn route_in(alloc: Global, document: &Table, value: &Value) -> Result<Route, ConfigFault>
    requires { pool_count (table_view document.now) ≤ MAX_POOLS }
    ensures route { IsAnswer
        (route_in (table_view document.now) (as_table (view value.now))) result }
    ensures there { IfOk result (λ route. route.pool ≤ pool_count (table_view document.now)) }
{
    let Some(table) = value.as_table() else {
        return Err(ConfigFault::shape(Key::Route));
    };
    let prefix = prefix_in(alloc, table)?;
    let cost = each_number(table, Key::RouteCost, None)?;
    let kib = each_number(table, Key::RouteKib, Some(0))?;
    let delay = number_in(document, Key::Delay);
    let delay = each_number(table, Key::RouteDelay, Some(delay))?;
    let pool = named_pool(document, table)?;
    Ok(Route::in_range(prefix, cost, kib, delay, pool))
}

/// The routes of a list, in their order.
fn each_route(alloc: Global, document: &Table, items: &Array) -> Result<Vec<Route>, ConfigFault>
    requires { pool_count (table_view document.now) ≤ MAX_POOLS }
    ensures routes { Shows (λ routes. routes.items)
        (each_route (table_view document.now) (array_view items.now)) result }
    ensures len { IfOk result (λ routes. length routes.items ≡ length items.now.items) }
    ensures there { IfOk result
        (λ routes. All (λ route. route.pool ≤ pool_count (table_view document.now)) routes.items) }
{
    let mut routes = Vec::new(alloc);
    'items: for item in items {
        let route = route_in(alloc, document, item)?;
        routes.push(route).map_err(AllocError::from)?;
    }
    Ok(routes)
}

/// The routes of a document; none, where it says nothing of them.
///
/// # Errors
///
/// `Shape` where they are no list of tables, `Range` where there are more than 64, the fault of the first that has one,
/// or `Memory`.
#[tactic(auto, using(crate::proofs::Counting::counted), unfolding(crate::specs::Routes::routes_of))]
pub(crate) fn routes_of(alloc: Global, document: &Table) -> Result<Routes, ConfigFault>
    requires { pool_count (table_view document.now) ≤ MAX_POOLS }
    ensures routes { IsAnswer (routes_of (table_view document.now)) result }
    ensures there { IfOk result
        (λ routes. All (λ route. route.pool ≤ pool_count (table_view document.now)) routes) }
{
    let Some(value) = member_of(document, Key::Route) else {
        return Ok(Routes::none());
    };
    let Some(items) = value.as_array() else {
        return Err(ConfigFault::shape(Key::Route));
    };
    if items.len() > MAX_ROUTES {
        return Err(ConfigFault::range(Key::Route));
    }
    Ok(Routes::new(each_route(alloc, document, items)?))
}
