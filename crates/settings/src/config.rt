//! From a document to settings.

ghost use Rattle.std.specs.Prelude.{◌≡◌, IfOk, false, None, Ok, Some, MatchResult};
ghost use Rattle.toml.specs.Data.{no_members};
ghost use Rattle.toml.specs.View.{table_view};
ghost use Rattle.stage_graph.specs.After.{last_cut};
ghost use Rattle.cost_model.specs.Services.{AreServed};
ghost use Rattle.settings.specs.ConfigFaults.{IsAnswer, is_memory, no_text};
ghost use Rattle.settings.specs.Documents.{number_in};
ghost use Rattle.settings.specs.Keys.{costs_with};
ghost use Rattle.settings.specs.SettingsTable.{chosen, default_choice, document_of, plan_of, plan_with, policies_of};
ghost use Rattle.settings.specs.SettingsTable.{policy_of, services_of, settings_of, settings_read};

use crate::document::{misplaced_in, number_in, numbers_in, values_fit};
use crate::keys::Kind;
use crate::pools::{each_used, pools_of};
use crate::routes::routes_of;
use crate::{ConfigFault, Key, PolicyKey, PolicyTable};
use admission::{Policy, PolicyNumbers};
use cost_model::{Costs, Pools, Routes};
use reference::{BACK_STEPS, FRONT_STEPS, Settings};
use stage_graph::{Plan, PlanFault};
use std::alloc::{AllocError, Global};
use toml::Table;

/// The most bytes of a settings document.
pub const MAX_SETTINGS_BYTES: usize = 65_536;

/// The settings of a document (docs/FORMATS.md, "Settings"): each key as it stands there, or its default.
///
/// # Errors
///
/// The first fault of the document, in the order that docs/FORMATS.md states, or `Memory`.
pub fn read_settings(alloc: Global, bytes: &[u8]) -> Result<Settings, ConfigFault>
    ensures { IsAnswer (settings_read bytes.now) result }
{
    let document = document_of(alloc, bytes)?;
    settings_of(alloc, &document)
}

/// The document that a text writes.
///
/// # Errors
///
/// `Text` where it has more than 65,536 bytes or is no TOML document, or `Memory`.
pub(crate) fn document_of(alloc: Global, bytes: &[u8]) -> Result<Table, ConfigFault>
    ensures { MatchResult result
        (λ document. document_of bytes.now ≡ Some (table_view document))
        (λ fault. is_memory fault ≡ false → (document_of bytes.now ≡ None) × (fault ≡ no_text)) }
{
    if bytes.len() > MAX_SETTINGS_BYTES {
        return Err(ConfigFault::TEXT);
    }
    let Ok(text) = std::str::from_utf8(bytes) else {
        return Err(ConfigFault::TEXT);
    };
    match toml::table_from_str(alloc, text) {
        Ok(document) => Ok(document),
        Err(error) if error.is_memory() => Err(ConfigFault::MEMORY),
        Err(_) => Err(ConfigFault::TEXT),
    }
}

/// The settings of a document that has been read.
pub(crate) fn settings_of(alloc: Global, document: &Table) -> Result<Settings, ConfigFault>
    ensures { IsAnswer (settings_of (table_view document.now)) result }
{
    if misplaced_in(document, None).is_some() {
        return Err(ConfigFault::UNKNOWN);
    }
    values_fit(alloc, document)?;
    chosen(alloc, document)
}

/// The default settings: those of a document without keys.
///
/// # Errors
///
/// Memory ran out.
pub fn default_settings(alloc: Global) -> Result<Settings, AllocError>
    ensures no_keys { IfOk result (λ settings. settings_of no_members ≡ Ok settings) }
    ensures value { IfOk result (λ settings. settings ≡ default_choice) }
{
    match settings_of(alloc, &Table::new(alloc)) {
        Ok(settings) => Ok(settings),
        // the defaults break no rule, so this is out of memory
        Err(_) => Err(AllocError),
    }
}

/// The settings of the values of a document, if they fit together.
fn chosen(alloc: Global, document: &Table) -> Result<Settings, ConfigFault>
    ensures { IsAnswer (chosen (table_view document.now)) result }
{
    let front = plan_of(alloc, document, Key::Front, FRONT_STEPS)?;
    let back = plan_of(alloc, document, Key::Back, BACK_STEPS)?;
    let policies = policies_of(document)?;
    let (pools, routes) = services_of(alloc, document)?;
    let settings = Settings::in_range(
        front,
        back,
        number_in(document, Key::Batch) as usize,
        number_in(document, Key::Cache) as usize,
        costs_of(document),
        policies,
        number_in(document, Key::RetryAfter),
    );
    Ok(settings.with_routes(routes, pools))
}

/// The policies of all tiers.
#[tactic(auto, unfolding(crate::specs::SettingsTable::policies_of))]
fn policies_of(document: &Table) -> Result<[Policy; 4], ConfigFault>
    ensures { result ≡ policies_of (table_view document.now) }
{
    let policy = policy_of(document, PolicyTable::Policy)?;
    let tier1 = policy_of(document, PolicyTable::Tier1)?;
    let tier2 = policy_of(document, PolicyTable::Tier2)?;
    let tier3 = policy_of(document, PolicyTable::Tier3)?;
    Ok([policy, tier1, tier2, tier3])
}

/// The pools and the routes, where each pool is named by a route.
#[tactic(auto, unfolding(crate::specs::SettingsTable::services_of))]
fn services_of(alloc: Global, document: &Table) -> Result<(Pools, Routes), ConfigFault>
    ensures services { IsAnswer (services_of (table_view document.now)) result }
    ensures served { IfOk result (λ services. AreServed services.1 services.0) }
{
    let pools = pools_of(alloc, document)?;
    let routes = routes_of(alloc, document)?;
    each_used(pools.as_slice(), routes.as_slice())?;
    Ok((pools, routes))
}

/// The service times, servers and delay of a document.
fn costs_of(document: &Table) -> Costs
    ensures { result ≡ costs_with (number_in (table_view document.now)) }
{
    let file = number_in(document, Key::File);
    let kib = number_in(document, Key::Kib);
    let error = number_in(document, Key::Error);
    let servers = number_in(document, Key::Servers);
    let delay = number_in(document, Key::Delay);
    Costs::in_range(file, kib, error).served_by(servers, delay)
}

/// The plan of a floor whose last stage ends with this step.
fn plan_of(alloc: Global, document: &Table, floor: Key, steps: usize) -> Result<Plan, ConfigFault>
    ensures plan { IsAnswer (plan_of (table_view document.now) floor steps) result }
    ensures steps { IfOk result (λ plan. last_cut plan ≡ steps) }
{
    let Kind::Lists(cuts, workers, capacities) = floor.row().kind else {
        return Err(ConfigFault::range(floor));
    };
    let cuts = numbers_in(alloc, document, cuts)?;
    let workers = numbers_in(alloc, document, workers)?;
    let capacities = numbers_in(alloc, document, capacities)?;
    plan_with(alloc, floor, steps, &cuts, &workers, &capacities)
}

/// The same of these lists.
fn plan_with(
    alloc: Global,
    floor: Key,
    steps: usize,
    cuts: &[usize],
    workers: &[usize],
    capacities: &[usize],
) -> Result<Plan, ConfigFault>
    ensures plan { IsAnswer (plan_with floor steps cuts.now workers.now capacities.now) result }
    ensures steps { IfOk result (λ plan. last_cut plan ≡ steps) }
{
    match Plan::new(alloc, cuts, workers, capacities) {
        Ok(plan) if plan.steps() == steps => Ok(plan),
        Err(PlanFault::Memory) => Err(ConfigFault::MEMORY),
        _ => Err(ConfigFault::range(floor)),
    }
}

/// The policy of a table, where the rate lies between its two ends.
#[tactic(auto, unfolding(crate::specs::SettingsTable::policy_of))]
fn policy_of(document: &Table, table: PolicyTable) -> Result<Policy, ConfigFault>
    ensures { result ≡ policy_of (table_view document.now) table }
{
    use PolicyKey::{
        Depth, Down, Every, Low, Rate, RateMax, RateMin, Smoothing, Target, Up, Window,
    };
    let numbers = PolicyNumbers {
        window: number_in(document, Key::InPolicy(table, Window)),
        every: number_in(document, Key::InPolicy(table, Every)),
        smoothing: number_in(document, Key::InPolicy(table, Smoothing)),
        rate: number_in(document, Key::InPolicy(table, Rate)),
        rate_min: number_in(document, Key::InPolicy(table, RateMin)),
        rate_max: number_in(document, Key::InPolicy(table, RateMax)),
        up: number_in(document, Key::InPolicy(table, Up)),
        down: number_in(document, Key::InPolicy(table, Down)),
        target: number_in(document, Key::InPolicy(table, Target)),
        low: number_in(document, Key::InPolicy(table, Low)),
        depth: number_in(document, Key::InPolicy(table, Depth)),
    };
    if numbers.rate < numbers.rate_min || numbers.rate > numbers.rate_max {
        return Err(ConfigFault::range(Key::InPolicy(table, PolicyKey::Rate)));
    }
    Ok(Policy::in_range(numbers))
}
