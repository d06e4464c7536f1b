//! Out of memory: `checks/refuse_growths.py` refuses each growth in turn.
use crate::explaining::explain;
use crate::replay_growths::CAPTURE;
use crate::replaying::{DEFAULT_SHAPE, fault_of, tight_settings};
use replay::ReplayFault;
use test_support::SNAPSHOT;

static WANT: &str =
    "number,connection,tick,tier,status,decision,service,credit,rate,start,finish,waited,method,target\n\
     0,0,0,0,200,admitted,201,1000000000,1000,0,201,0,GET,/a.txt\n\
     1,3,1,0,503,rejected,50,1000,1000,,,200,GET,/\n";

/// A call whose growth is refused says so, and has written a prefix of what it would have written: the text in memory
/// has its room beforehand, so no write fails.
#[test]
fn each_growth_refused(rt: HostRuntime) {
    let Some(settings) = tight_settings(rt.alloc(), DEFAULT_SHAPE) else {
        return;
    };
    let Some(ran) = explain(rt.alloc(), SNAPSHOT, &settings, CAPTURE) else {
        return;
    };
    match fault_of(&ran) {
        None => assert_eq!(rt; ran.text.as_slice(), WANT.as_bytes()),
        Some(fault) => {
            assert_eq!(rt; fault, ReplayFault::Memory);
            assert!(rt; WANT.as_bytes().starts_with(&ran.text));
        }
    }
}
