//! What no row of `tests/command_words.toml` shows: the engine of a replay's words, and words without memory.
use command_line::{Engine, Job, WordFault, read_words};

#[test]
fn replays(rt: HostRuntime) {
    let plainest = [
        "replay",
        "--snapshot",
        "s",
        "--capture",
        "c",
        "--replies",
        "o",
    ];
    let whole = [
        "replay",
        "--speed",
        "200",
        "--engine=plain",
        "--replies",
        "o",
        "--settings",
        "t",
        "--capture=c",
        "--snapshot",
        "s",
    ];
    let table = [
        (plainest.as_slice(), None, Engine::Staged, 100),
        (whole.as_slice(), Some("t"), Engine::Plain, 200),
    ];
    for (words, document, chosen, percent) in table {
        match read_words(rt.alloc(), words) {
            Ok(
                Job::Replay {
                    snapshot,
                    capture,
                    replies,
                    settings,
                    engine,
                    speed,
                },
            ) => {
                assert_eq!(rt; (snapshot, capture, replies), ("s", "c", "o"));
                assert_eq!(rt; (settings, engine, speed), (document, chosen, percent));
            }
            _ => assert!(rt; false, "the words of a replay"),
        }
    }
}

/// Words, and what they are answered by.
static WORDS: [(&[&str], &str); 6] = [
    (
        &[
            "replay",
            "--speed",
            "200",
            "--engine=plain",
            "--replies",
            "o",
            "--settings",
            "t",
            "--capture=c",
            "--snapshot",
            "s",
        ],
        "replay",
    ),
    (&["upgrade", "--output", "n", "--capture=c"], "upgrade"),
    (&["slim", "--output", "n", "--capture=c"], "slim"),
    (
        &["snapshot", "--skip", "--output=n", "--folder=f"],
        "snapshot",
    ),
    (&["settings", "--settings", "t"], "settings"),
    (&["replay", "--snapshot", "s", "--capture", "c"], "a text"),
];

fn name_of(answer: &Result<Job, WordFault>) -> &'static str {
    match answer {
        Ok(Job::Replay { .. }) => "replay",
        Ok(Job::Upgrade { .. }) => "upgrade",
        Ok(Job::Slim { .. }) => "slim",
        Ok(Job::Snapshot { .. }) => "snapshot",
        Ok(Job::Settings { .. }) => "settings",
        Ok(_) => "another job",
        Err(WordFault::Words(_)) => "a text",
        Err(WordFault::Memory) => "no memory",
        Err(_) => "another fault",
    }
}

/// `checks/refuse_growths.py` refuses each growth in turn: the answer is `Memory` then.
#[test]
fn each_growth_refused(rt: HostRuntime) {
    for (words, wanted) in WORDS {
        let answer = read_words(rt.alloc(), words);
        let name = name_of(&answer);
        assert!(rt; name == wanted || name == "no memory", "{name}");
    }
}
