//! Counting the messages of a text. It takes no memory, so each text has messages to count.
ghost use Rattle.std.specs.Prelude.{◌≡◌, ◌≤◌, List, ℕ, length};
ghost use Rattle.http_requests.specs.declared.messages.Message.{Message as AMessage};
ghost use Rattle.http_requests.specs.Reference.{MessagesOf};
ghost use Rattle.http_requests.specs.Cutting.{IsStep};

use crate::heads::measure_block;
use crate::scanning::{Found, find};

/// What stands at the start of the rest of a text.
#[derive(Clone, Copy)]
pub enum CountStep {
    /// No message is whole.
    Missing,
    /// A message that ends the connection.
    Last,
    /// A message that doesn't: how many bytes it has, with the empty lines before it.
    Over(usize),
}

/// Takes one step over the rest of a text.
fn next_step(rest: &[u8]) -> CountStep
    ensures { IsStep rest.now result }
{
    match find(rest, 0) {
        Found::Wait(_) => CountStep::Missing,
        Found::Over(_) => CountStep::Last,
        Found::Whole(start, len) => {
            let extent = measure_block(&rest[start..start + len]);
            let body = extent.length as usize;
            if rest.len() - (start + len) < body {
                CountStep::Missing
            } else if extent.closes {
                CountStep::Last
            } else {
                CountStep::Over(start + len + body)
            }
        }
    }
}

/// How many messages a text has: each text has a list of messages.
pub fn count_messages(text: &[u8]) -> usize
    ensures { (ms : List AMessage) × MessagesOf text.now ms × (result ≡ length ms) }
{
    let mut at: usize = 0;
    let mut count: usize = 0;
    while at < text.len() {
        match next_step(&text[at..]) {
            CountStep::Missing => return count,
            CountStep::Last => return count + 1,
            CountStep::Over(n) => {
                at += n;
                count += 1;
            }
        }
    }
    count
}
