//! Out of memory: `checks/refuse_growths.py` refuses each growth in turn.
use admission::{Controller, Decision, Policy};

/// An offer whose growth is refused leaves the controller as it was: offered again, the request has the answer that it
/// would have had.
#[test]
fn each_growth_refused(rt: HostRuntime) {
    let policy = Policy::new(2, 1, 700, 1000, 500, 2000, 10, 120, 1000, 90, 10).expect(
        &rt, "a policy",
    );
    let Ok(mut controller) = Controller::new(rt.alloc(), [policy; 4]) else {
        return;
    };
    // three requests of tier 0, and then the same three of tier 1
    for place in 0..6u64 {
        let tier = (place / 3) as u8;
        let service = if place % 3 == 0 { 5000 } else { 100 };
        let answer = match controller.offer(tier, 5000 * place, service) {
            Ok(decision) => Ok(decision),
            Err(_) => controller.offer(tier, 5000 * place, service),
        };
        let Ok(decision) = answer else {
            return;
        };
        assert_eq!(rt;
            decision,
            Decision::Admitted {
                finish: 5000 * place + service
            }
        );
    }
    let rates = controller.controls(0).iter().map(|control| control.rate);
    assert!(rt; rates.eq([833, 694, 578]));
    let rates = controller.controls(1).iter().map(|control| control.rate);
    assert!(rt; rates.eq([833, 694]));
}

/// With three servers an offer takes memory, and where there is another pool once more where it waits.
#[test]
fn each_growth_of_servers_refused(rt: HostRuntime) {
    let policy = Policy::new(2, 1, 700, 1000, 500, 2000, 10, 120, 1000, 90, 10).expect(
        &rt, "a policy",
    );
    let Ok(mut controller) = Controller::with_pools(rt.alloc(), [policy; 4], &[3, 1]) else {
        return;
    };
    for place in 0..6u64 {
        let answer = match controller.offer_to(0, 0, 0, 5, 7) {
            Ok(decision) => Ok(decision),
            Err(_) => controller.offer_to(0, 0, 0, 5, 7),
        };
        let Ok(decision) = answer else {
            return;
        };
        let finish = if place < 3 { 5 } else { 10 };
        assert_eq!(rt; decision, Decision::Admitted { finish });
    }
    assert!(rt; controller.controls(0).is_empty());
    let (_controls, pools) = controller.into_parts();
    let longest = pools.iter().map(|own| own.longest_queue);
    assert!(rt; longest.eq([3, 0]));
}

/// What a request would find is asked again where there was no memory for the responses that are complete by then.
#[test]
fn each_growth_refused_while_time_passes(rt: HostRuntime) {
    let policy = Policy::new(2, 1, 700, 1000, 500, 2000, 10, 120, 1000, 90, 10).expect(
        &rt, "a policy",
    );
    let Ok(mut controller) = Controller::new(rt.alloc(), [policy; 4]) else {
        return;
    };
    for place in 0..3u64 {
        let service = if place == 0 { 5000 } else { 100 };
        let answer = match controller.offer(0, place, service) {
            Ok(decision) => Ok(decision),
            Err(_) => controller.offer(0, place, service),
        };
        if answer.is_err() {
            return;
        }
    }
    let answer = match controller.outlook(0, 0, 6000) {
        Ok(found) => Ok(found),
        Err(_) => controller.outlook(0, 0, 6000),
    };
    let Ok(found) = answer else {
        return;
    };
    assert_eq!(rt; found.rate, 578);
    assert_eq!(rt; found.free, 5200);
}
