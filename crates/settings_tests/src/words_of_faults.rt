//! What is said in words of a fault, without memory.
use settings::{fault_words, read_settings};

/// Without memory nothing is said, and else all.
#[test]
fn each_growth_refused(rt: HostRuntime) {
    let text = "[policy]\nrat = 1\n";
    let Err(fault) = read_settings(rt.alloc(), text.as_bytes()) else {
        return assert!(rt; false, "a document without a fault");
    };
    if let Ok(words) = fault_words(rt.alloc(), text.as_bytes(), fault) {
        let wanted = "policy.rat is no key of the settings; the nearest is policy.rate";
        assert!(rt; words.is_empty() || words.as_str() == wanted);
    }
}
