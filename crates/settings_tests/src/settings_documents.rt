//! What no row of `tests/settings_documents.toml` shows: names of keys, and documents without memory.
use settings::{
    ConfigFault, ConfigFaultKind, Key, PolicyKey, PolicyTable, default_settings, read_settings,
};
use std::test::Fail;

/// A document with every key.
static PARTIAL: &str = "tier1.depth = 13
route = [{prefix = \"/api\", cost = 1_000_000_000}, \
{delay = 3, kib = 9, cost = 1, prefix = \"/a \\\"b\\\"\\\\\\u0001/\u{e9}\"}]
tier3 = {window = 51, every = 52, smoothing = 53, rate = 540, rate_min = 54, rate_max = 5_400, \
up = 1_000_000_000, down = 102, target = 56, low = 57, depth = 58}
[page]
retry_after = 86_400
[tier2]
window = 1
every = 4096
smoothing = 0
rate = 1
rate_min = 1
rate_max = 1
up = 0
down = 101
target = 1
low = 0
depth = 1_000_000
[policy]
depth = 12
low = 0x64
target = 1000000000000
down = 10000
up = 9
rate = 31
rate_min = 30
rate_max = 1000000000
smoothing = 999
every = 2
window = 4096
[costs]
delay = 1_000_000_000
error = 1
kib = 7
servers = 1024
file = 1000000
[floor]
cache = 0
batch = 65536
front_cuts = [1, 3]
front_workers = [1, 16]
front_capacities = [4096, 1]
back_cuts = [2]
back_workers = [3]
back_capacities = [5]
";

/// A tight bucket in all tiers, and in tier 1 with room for one more.
const TIGHT_TIERS: &str = "[policy]
depth = 1
rate = 1000
rate_min = 1000
rate_max = 1000
[tier1]
depth = 2
";

#[test]
fn every_key(rt: HostRuntime) {
    assert!(rt; read_settings(rt.alloc(), PARTIAL.as_bytes()).is_ok());
    assert!(rt; default_settings(rt.alloc()).is_ok());
}

#[test]
fn keys_shown(rt: HostRuntime) -> Result<(), Fail> {
    let policy = Key::Policy(PolicyTable::Policy);
    let rate_max = Key::InPolicy(PolicyTable::Tier3, PolicyKey::RateMax);
    let shown = format!(in rt.alloc();
        "{policy}, {rate_max}, {}, {}",
        Key::RetryAfter,
        Key::Front
    )?;
    assert_eq!(rt;
        shown.as_str(),
        "policy, tier3.rate_max, page.retry_after, floor.front"
    );
    Ok(())
}

/// `checks/refuse_growths.py` refuses each growth in turn: the answer is `Memory` then.
#[test]
fn each_growth_refused(rt: HostRuntime) {
    for text in [PARTIAL, TIGHT_TIERS] {
        match read_settings(rt.alloc(), text.as_bytes()) {
            Ok(_) => {}
            Err(fault) => assert_eq!(rt;
                fault,
                ConfigFault {
                    kind: ConfigFaultKind::Memory,
                    key: None
                }
            ),
        }
    }
    let _ = default_settings(rt.alloc());
}
