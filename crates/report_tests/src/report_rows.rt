//! Reports of outcomes that no short text comes to.
use crate::report_outcomes::{each_status, each_tier, many};
use captures::Version;
use report::report;
use std::alloc::AllocGlobal;
use std::process::Abort;

static EACH_STATUS: &str = "haboob-report 1
messages 45
bypassed 40
admitted 3
rejected 2
status 200 1
status 301 2
status 304 3
status 400 4
status 404 5
status 405 6
status 413 7
status 501 8
status 503 9
p50 8
p90 9
p99 9
controls 2
control 1 5000 5000 1500 833
control 2 5100 100 1080 694
reject 3
reject 44
end
";

#[test]
fn of_each_status(rt: HostRuntime) {
    let outcome = each_status(rt.alloc()).expect(&rt, "memory");
    let text = report(rt.alloc(), outcome).expect(&rt, "memory");
    assert_eq!(rt; text.as_str(), EACH_STATUS);
}

/// Each tier's controls are numbered from 1, and the pools from 0.
static EACH_TIER: &str = "haboob-report 1
messages 3
bypassed 0
admitted 1
rejected 2
status 200 0
status 301 1
status 304 0
status 400 0
status 404 0
status 405 0
status 413 0
status 501 0
status 503 2
p50 50
p90 50
p99 50
controls 1
control 1 5100 100 1080 694
tier 1 0 2 2
control 1 5000 5000 1500 833
control 2 5100 100 1080 694
tier 3 1 0 1
control 1 5000 5000 1500 833
pool 0 0 0 0
pool 1 1 40 2
reject 0
reject 2
end
";

#[test]
fn of_each_tier(rt: HostRuntime) {
    let outcome = each_tier(rt.alloc()).expect(&rt, "memory");
    let text = report(rt.alloc(), outcome).expect(&rt, "memory");
    assert_eq!(rt; text.as_str(), EACH_TIER);
}

/// `checks/refuse_growths.py` refuses each growth in turn: then there is no report, and one that comes is whole.
#[test]
fn each_growth_refused(rt: HostRuntime) {
    let Ok(outcome) = each_tier(rt.alloc()) else {
        return;
    };
    if let Ok(text) = report(rt.alloc(), outcome) {
        assert_eq!(rt; text.as_str(), EACH_TIER);
    }
}

/// What stands in the report of many requests where all controls of each tier are listed.
static EVERY_CONTROL: [&str; 3] = [
    "\np50 50000\np90 90000\np99 99000\ncontrols 100000\ncontrol 1 0 3 2 1\n",
    "control 100000 99999 3 2 1\ntier 1 50000 50000 100000\ncontrol 1 0 3 2 1\n",
    "control 100000 99999 3 2 1\nreject 0\nreject 1\n",
];

/// And where the last 1,000 are.
static LAST_CONTROLS: [&str; 3] = [
    "\np50 50000\np90 90000\np99 99000\ncontrols 100000\ncontrol 99001 99000 3 2 1\n",
    "control 100000 99999 3 2 1\ntier 1 50000 50000 100000\ncontrol 99001 99000 3 2 1\n",
    "control 100000 99999 3 2 1\nreject 0\nreject 1\n",
];

/// The report of many requests in this format has these parts.
fn check_many(rt: &(impl Abort + AllocGlobal), version: Version, parts: &[&str; 3]) {
    let outcome = many(rt.alloc(), version).expect(rt, "memory");
    let text = report(rt.alloc(), outcome).expect(rt, "memory");
    let text = text.as_str();
    let front = "haboob-report 1\nmessages 200000\nbypassed 0\nadmitted 100000\nrejected 100000\n";
    let is_right = text.starts_with(front)
        && text.ends_with("\nreject 99999\nend\n")
        && parts.iter().all(|part| text.contains(*part));
    assert!(rt; is_right, "{version:?}");
}

/// A capture's report lists all controls of each tier, that of a text of traffic the last 1,000, with their numbers.
#[test]
fn of_many(rt: HostRuntime) {
    check_many(&rt, Version::One, &EVERY_CONTROL);
    check_many(&rt, Version::Two, &EVERY_CONTROL);
    check_many(&rt, Version::Traffic, &LAST_CONTROLS);
}
