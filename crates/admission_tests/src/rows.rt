//! Rows worked by hand.
use admission::{Control, Controller, Decision, Outlook, Policy, PolicyFault, PoolFigures};
use std::test::Fail;

fn control(instant: u64, percentile: u64, smoothed: u64, rate: u64) -> Control {
    Control {
        instant,
        percentile,
        smoothed,
        rate,
    }
}

// Each second brings one token and two offers, so that the first of them takes it: more offers
// than 2^20, and a full window of the greatest size.
#[test]
fn many_offers(rt: HostRuntime) -> Result<(), Fail> {
    let policy = Policy::new(4096, 100, 700, 1000, 1000, 1000, 2000, 120, 100_000, 90, 1).expect(
        &rt, "a policy",
    );
    let mut controller = Controller::new(rt.alloc(), [policy; 4])?;
    for j in 0..1_100_000u64 {
        let wanted = if j % 2 == 0 {
            Decision::Admitted {
                finish: 500_000 * j + 201,
            }
        } else {
            Decision::Rejected
        };
        assert_eq!(rt; controller.offer(0, 500_000 * j, 201)?, wanted);
    }
    assert_eq!(rt; controller.controls(0).len(), 5500);
    assert_eq!(rt;
        controller.controls(0).last().map(|control| control.instant),
        Some(549_999_000_201)
    );
    Ok(())
}

#[test]
fn each_tier_has_a_bucket_and_all_share_the_server(rt: HostRuntime) -> Result<(), Fail> {
    // one token in each bucket, two in that of tier 1, and all offers at tick 0
    let single = Policy::new(100, 100, 700, 1000, 1000, 1000, 2000, 120, 100_000, 90, 1).expect(
        &rt, "a policy",
    );
    let double = Policy::new(100, 100, 700, 1000, 1000, 1000, 2000, 120, 100_000, 90, 2).expect(
        &rt, "a policy",
    );
    let mut controller = Controller::new(rt.alloc(), [single, double, single, single])?;
    assert_eq!(rt;
        controller.offer(0, 0, 201)?,
        Decision::Admitted { finish: 201 }
    );
    assert_eq!(rt;
        controller.offer(1, 0, 201)?,
        Decision::Admitted { finish: 402 }
    );
    assert_eq!(rt; controller.offer(0, 0, 201)?, Decision::Rejected);
    assert_eq!(rt;
        controller.offer(1, 0, 201)?,
        Decision::Admitted { finish: 603 }
    );
    assert_eq!(rt; controller.offer(1, 0, 201)?, Decision::Rejected);
    for tier in 0..4u8 {
        assert!(rt; controller.controls(tier).is_empty());
    }
    assert_eq!(rt; (controller.admitted(0), controller.rejected(0)), (1, 1));
    assert_eq!(rt; (controller.admitted(1), controller.rejected(1)), (2, 1));
    assert_eq!(rt; (controller.admitted(2), controller.rejected(3)), (0, 0));
    Ok(())
}

/// Numbers of a policy (window, every, smoothing, rate, target, depth), and their first fault.
type FaultRow = ([u64; 6], Option<PolicyFault>);

static FAULT_ROWS: [FaultRow; 9] = [
    ([0, 0, 1000, 49, 0, 0], Some(PolicyFault::Window)),
    ([4097, 0, 1000, 49, 0, 0], Some(PolicyFault::Window)),
    ([4096, 4097, 1000, 49, 0, 0], Some(PolicyFault::Every)),
    ([4096, 4096, 1000, 49, 0, 0], Some(PolicyFault::Smoothing)),
    ([4096, 4096, 999, 49, 0, 0], Some(PolicyFault::Rates)),
    ([4096, 4096, 999, 5001, 0, 0], Some(PolicyFault::Rates)),
    ([4096, 4096, 999, 5000, 0, 0], Some(PolicyFault::Target)),
    ([4096, 4096, 999, 50, 1, 0], Some(PolicyFault::Depth)),
    ([1, 1, 0, 50, 1, 1], None),
];

#[test]
fn the_first_fault_of_a_policy_is_named(rt: HostRuntime) {
    for (numbers, fault) in FAULT_ROWS.iter() {
        let [window, every, smoothing, rate, target, depth] = *numbers;
        let made = Policy::new(
            window, every, smoothing, rate, 50, 5000, 20, 120, target, 90, depth,
        );
        assert_eq!(rt; made.err(), *fault);
    }
}

#[test]
fn the_text_of_each_fault_of_a_policy(rt: HostRuntime) -> Result<(), Fail> {
    let texts = [
        (
            PolicyFault::Window,
            "the window is not within 1 to 4096 samples",
        ),
        (
            PolicyFault::Every,
            "a control is not made at each 1 to 4096 requests",
        ),
        (
            PolicyFault::Smoothing,
            "the smoothing is above 999 thousandths",
        ),
        (
            PolicyFault::Rates,
            "the rates or their steps are outside their ranges",
        ),
        (
            PolicyFault::Target,
            "the target or its low mark is outside its range",
        ),
        (
            PolicyFault::Depth,
            "the depth is not within 1 to 1000000 tokens",
        ),
    ];
    for (fault, text) in texts {
        let shown = format!(in rt.alloc(); "{fault}")?;
        assert_eq!(rt; shown.as_str(), text);
    }
    Ok(())
}

/// docs/RULES.md, "Servers": the third request waits for the server that is the first to be free, and the controls
/// stand where the responses are complete, the first request's last.
#[test]
fn three_requests_on_two_servers(rt: HostRuntime) -> Result<(), Fail> {
    let policy = Policy::new(1, 1, 700, 1000, 500, 2000, 10, 120, 1000, 90, 10).expect(
        &rt, "a policy",
    );
    let mut controller = Controller::with_pools(rt.alloc(), [policy; 4], &[2])?;
    assert_eq!(rt;
        controller.offer(0, 0, 9)?,
        Decision::Admitted { finish: 9 }
    );
    assert_eq!(rt;
        controller.offer(0, 1, 4)?,
        Decision::Admitted { finish: 5 }
    );
    assert_eq!(rt;
        controller.offer(0, 2, 3)?,
        Decision::Admitted { finish: 8 }
    );
    let before = Outlook {
        credit: 7_000_008_030,
        rate: 1020,
        free: 8,
    };
    assert_eq!(rt; controller.outlook(0, 0, 8)?, before);
    let at = Outlook {
        credit: 7_000_009_050,
        rate: 1030,
        free: 8,
    };
    assert_eq!(rt; controller.outlook(0, 0, 9)?, at);
    assert_eq!(rt;
        controller.offer(1, 20, 1)?,
        Decision::Admitted { finish: 21 }
    );
    let shown = [
        control(5, 4, 1, 1010),
        control(8, 6, 2, 1020),
        control(9, 9, 4, 1030),
    ];
    assert_eq!(rt; controller.controls(0), shown.as_slice());
    Ok(())
}

/// While one of three servers works on a long request, the others' requests are complete, and a control stands where
/// each of them is.
#[test]
fn a_long_request_stops_no_control(rt: HostRuntime) -> Result<(), Fail> {
    let policy = Policy::new(1, 1, 0, 1000, 500, 2000, 10, 120, 1000, 90, 10).expect(
        &rt, "a policy",
    );
    let mut controller = Controller::with_pools(rt.alloc(), [policy; 4], &[3])?;
    assert_eq!(rt;
        controller.offer(0, 0, 2000)?,
        Decision::Admitted { finish: 2000 }
    );
    assert_eq!(rt;
        controller.offer(0, 1, 2)?,
        Decision::Admitted { finish: 3 }
    );
    assert_eq!(rt;
        controller.offer(0, 2, 2)?,
        Decision::Admitted { finish: 4 }
    );
    assert_eq!(rt;
        controller.offer(0, 10, 5)?,
        Decision::Admitted { finish: 15 }
    );
    assert_eq!(rt;
        controller.offer(1, 20, 1)?,
        Decision::Admitted { finish: 21 }
    );
    let short = [
        control(3, 2, 2, 1010),
        control(4, 2, 2, 1020),
        control(15, 5, 5, 1030),
    ];
    assert_eq!(rt; controller.controls(0), short.as_slice());
    assert_eq!(rt;
        controller.offer(1, 2000, 1)?,
        Decision::Admitted { finish: 2001 }
    );
    let controls = controller.controls(0);
    assert_eq!(rt; controls.len(), 4);
    assert_eq!(rt; controls[3], control(2000, 2000, 2000, 858));
    Ok(())
}

/// Of two responses that are complete at one tick, that of the request that was admitted first is taken first.
#[test]
fn two_are_complete_at_one_tick(rt: HostRuntime) -> Result<(), Fail> {
    let policy = Policy::new(1, 1, 0, 1000, 500, 2000, 10, 120, 1000, 90, 10).expect(
        &rt, "a policy",
    );
    let mut controller = Controller::with_pools(rt.alloc(), [policy; 4], &[2])?;
    // the first one's server is free at tick 4, and its response is complete at tick 9
    assert_eq!(rt;
        controller.offer_to(0, 0, 0, 4, 5)?,
        Decision::Admitted { finish: 4 }
    );
    assert_eq!(rt;
        controller.offer(0, 4, 5)?,
        Decision::Admitted { finish: 9 }
    );
    assert_eq!(rt;
        controller.offer(1, 9, 1)?,
        Decision::Admitted { finish: 10 }
    );
    let shown = [control(9, 9, 9, 1010), control(9, 5, 5, 1020)];
    assert_eq!(rt; controller.controls(0), shown.as_slice());
    Ok(())
}

/// A delay is in the response times alone: it makes the controller lower its rate once the response is complete, and
/// the server is free before that.
#[test]
fn a_delay_lowers_the_rate(rt: HostRuntime) -> Result<(), Fail> {
    let policy = Policy::new(1, 1, 700, 1000, 500, 2000, 10, 120, 1000, 90, 10).expect(
        &rt, "a policy",
    );
    let mut controller = Controller::new(rt.alloc(), [policy; 4])?;
    assert_eq!(rt;
        controller.offer_to(0, 0, 0, 100, 5000)?,
        Decision::Admitted { finish: 100 }
    );
    assert_eq!(rt;
        controller.offer_to(0, 0, 0, 100, 5000)?,
        Decision::Admitted { finish: 200 }
    );
    assert_eq!(rt;
        controller.offer(0, 200, 100)?,
        Decision::Admitted { finish: 300 }
    );
    assert!(rt; controller.controls(0).is_empty());
    assert_eq!(rt;
        controller.offer(1, 5200, 1)?,
        Decision::Admitted { finish: 5201 }
    );
    let shown = [
        control(300, 100, 30, 1010),
        control(5100, 5100, 1551, 841),
        control(5200, 5200, 2645, 700),
    ];
    assert_eq!(rt; controller.controls(0), shown.as_slice());
    let (controls, pools) = controller.into_parts();
    assert_eq!(rt; controls[0].as_slice(), shown.as_slice());
    assert!(rt; controls[1].is_empty());
    // of the default pool alone there are no figures
    assert!(rt; pools.is_empty());
    Ok(())
}

/// As many requests as there are servers begin when they come, and the next one when the first of them is finished.
#[test]
fn the_most_servers(rt: HostRuntime) -> Result<(), Fail> {
    let policy = Policy::new(1, 1, 0, 1000, 1000, 1000, 0, 120, 1000, 90, 2000).expect(
        &rt, "a policy",
    );
    let mut controller = Controller::with_pools(rt.alloc(), [policy; 4], &[1024])?;
    for j in 0..1024u64 {
        assert_eq!(rt;
            controller.offer_to(0, 0, 0, 2000 - j, 1_000_000_000)?,
            Decision::Admitted { finish: 2000 - j }
        );
    }
    assert_eq!(rt;
        controller.offer(0, 0, 5)?,
        Decision::Admitted { finish: 982 }
    );
    assert_eq!(rt;
        controller.offer(0, 979, 1)?,
        Decision::Admitted { finish: 980 }
    );
    Ok(())
}

/// A pool of one server and one of two: a long request in pool 1 delays no request of the default pool. In pool 1 the
/// third request waits until tick 11, when the second one's server is free, and in the default pool the second one from
/// tick 3 until tick 5, when the first one is finished.
#[test]
fn a_request_waits_for_its_own_pool_alone(rt: HostRuntime) -> Result<(), Fail> {
    let policy = Policy::new(100, 100, 700, 1000, 1000, 1000, 0, 120, 1000, 90, 10).expect(
        &rt, "a policy",
    );
    let mut controller = Controller::with_pools(rt.alloc(), [policy; 4], &[1, 2])?;
    assert_eq!(rt;
        controller.offer_to(1, 0, 0, 1000, 0)?,
        Decision::Admitted { finish: 1000 }
    );
    assert_eq!(rt;
        controller.offer(0, 0, 5)?,
        Decision::Admitted { finish: 5 }
    );
    assert_eq!(rt;
        controller.offer_to(1, 0, 1, 10, 0)?,
        Decision::Admitted { finish: 11 }
    );
    assert_eq!(rt;
        controller.offer_to(1, 1, 2, 10, 0)?,
        Decision::Admitted { finish: 21 }
    );
    assert_eq!(rt;
        controller.offer(0, 3, 4)?,
        Decision::Admitted { finish: 9 }
    );
    assert_eq!(rt; controller.outlook(0, 0, 4)?.free, 9);
    assert_eq!(rt; controller.outlook(1, 0, 4)?.free, 21);
    Ok(())
}

/// Two requests of tier 0 find a token, and the third is rejected: it occupies no server of pool 1 and isn't in its
/// figures. The second waits until tick 100, and that of tier 1, which comes at the same tick, until 200: two wait.
/// When that of tier 2 comes, at tick 150, the second has begun, and two wait again.
#[test]
fn a_pool_counts_its_admitted_requests(rt: HostRuntime) -> Result<(), Fail> {
    let policy = Policy::new(100, 100, 700, 1000, 1000, 1000, 0, 120, 1000, 90, 2).expect(
        &rt, "a policy",
    );
    let mut controller = Controller::with_pools(rt.alloc(), [policy; 4], &[1, 1])?;
    assert_eq!(rt;
        controller.offer_to(1, 0, 0, 100, 0)?,
        Decision::Admitted { finish: 100 }
    );
    assert_eq!(rt;
        controller.offer_to(1, 0, 0, 100, 0)?,
        Decision::Admitted { finish: 200 }
    );
    assert_eq!(rt; controller.offer_to(1, 0, 0, 100, 0)?, Decision::Rejected);
    assert_eq!(rt;
        controller.offer_to(1, 1, 0, 100, 0)?,
        Decision::Admitted { finish: 300 }
    );
    assert_eq!(rt;
        controller.offer_to(1, 2, 150, 50, 0)?,
        Decision::Admitted { finish: 350 }
    );
    let default = PoolFigures {
        admitted: 0,
        busy: 0,
        longest_queue: 0,
    };
    let named = PoolFigures {
        admitted: 4,
        busy: 350,
        longest_queue: 2,
    };
    let (_controls, pools) = controller.into_parts();
    assert_eq!(rt; pools.as_slice(), [default, named].as_slice());
    Ok(())
}
