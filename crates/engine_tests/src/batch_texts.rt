//! Texts in which floors and batches might go wrong, one of each kind.
use std::alloc::{AllocError, Global};
use test_support::capture_of;

/// A file, a folder and an empty file.
pub static FILES: &str = "haboob-snapshot 1\nfile 784111777 5 3\na.txt\nhi\n\n\
     file 784111777 15 3\ndocs/index.html\nhi\n\nfile 784111777 1 0\ne\n\nend 3\n";

/// A text, and whether it is replayed to its end.
pub static TEXTS: [(&str, bool); 16] = [
    // No message.
    ("haboob-capture 1 784111777\nstop 0\n", true),
    // What follows a message that closes, in its piece and in the next one.
    (
        "haboob-capture 1 784111777\n\
         piece 0 0 115\nGET /a.txt HTTP/1.1\r\nHost: a\r\n\r\nGET /a.txt HTTP/1.1\r\nHost: a\r\n\
         Connection: close\r\n\r\nGET /a.txt HTTP/1.1\r\nHost: a\r\n\r\n\n\
         piece 1 0 32\nGET /a.txt HTTP/1.1\r\nHost: a\r\n\r\n\nstop 2\n",
        true,
    ),
    // Half a request each, in turn.
    (
        "haboob-capture 1 784111777\npiece 0 1 13\nGET /a.txt HT\npiece 1 0 26\nHEAD /a.txt HTTP/1.1\r\nHost\n\
         piece 2 1 19\nTP/1.1\r\nHost: a\r\n\r\n\npiece 3 0 7\n: a\r\n\r\n\nstop 4\n",
        true,
    ),
    // Two requests in three pieces, with empty lines between them.
    (
        "haboob-capture 1 784111777\npiece 0 0 31\nGET /a.txt HTTP/1.1\r\nHost: a\r\n\r\n\
         piece 1000000 0 5\n\n\r\n\nG\npiece 2000000 0 31\nET /a.txt HTTP/1.1\r\nHost: a\r\n\r\n\nstop 3\n",
        true,
    ),
    // Messages that break a rule, and one after such a message; and connections by the rules of each version.
    (
        "haboob-capture 1 784111777\npiece 0 0 50\nGET / HTTP/1.1\r\n\r\nGET /a.txt HTTP/1.1\r\nHost: a\r\n\r\n\n\
         piece 0 1 32\nGET /a.txt HTTP/1.1\r\nHost: a\r\n\r\n\n\
         piece 0 2 51\nGET /a.txt HTTP/1.1\r\nHost: a\r\nConnection: close\r\n\r\n\n\
         piece 0 3 70\nGET /a.txt HTTP/1.0\r\nConnection: keep-alive\r\n\r\nGET /a.txt HTTP/1.0\r\n\r\n\n\
         piece 0 4 56\nPOST /a.txt HTTP/1.1\r\nHost: a\r\nContent-Length: 65537\r\n\r\n\n\
         piece 0 5 60\nGET /a.txt HTTP/1.1\r\nHost: a\r\nTransfer-Encoding: chunked\r\n\r\n\nstop 6\n",
        true,
    ),
    // A body, a folder, an empty file, and files with conditions.
    (
        "haboob-capture 1 784111777\n\
         piece 0 0 87\nPOST /a.txt HTTP/1.1\r\nHost: a\r\nContent-Length: 3\r\n\r\nabcGET //docs HTTP/1.1\r\n\
         Host: a\r\n\r\n\n\
         piece 1 0 110\nGET /e HTTP/1.1\r\nHost: a\r\n\r\nGET /a.txt HTTP/1.1\r\nHost: a\r\n\
         If-Modified-Since: Sun, 06 Nov 1994 08:49:37 GMT\r\n\r\n\n\
         piece 2 0 101\nHEAD /a.txt HTTP/1.1\r\nHost: a\r\nIf-None-Match: *\r\n\
         If-Modified-Since: Sun, 06 Nov 1994 08:49:37 GMT\r\n\r\n\nstop 3\n",
        true,
    ),
    // Controls, of which one falls into a gap.
    (
        "haboob-capture 1 784111777\npiece 0 0 31\nGET /none HTTP/1.1\r\nHost: a\r\n\r\n\n\
         piece 5000 1 32\nGET /a.txt HTTP/1.1\r\nHost: a\r\n\r\n\n\
         piece 5100 0 32\nGET /a.txt HTTP/1.1\r\nHost: a\r\n\r\n\n\
         piece 1199477 0 32\nGET /a.txt HTTP/1.1\r\nHost: a\r\n\r\n\n\
         piece 1199478 0 32\nGET /a.txt HTTP/1.1\r\nHost: a\r\n\r\n\nstop 5\n",
        true,
    ),
    // Tiers, of which one is given late.
    (
        "haboob-capture 2 784111777\ntier 1 1\npiece 0 0 32\nGET /a.txt HTTP/1.1\r\nHost: a\r\n\r\n\n\
         piece 0 1 32\nGET /a.txt HTTP/1.1\r\nHost: a\r\n\r\n\ntier 65535 3\nend 0 0\n\
         piece 0 1 32\nGET /a.txt HTTP/1.1\r\nHost: a\r\n\r\n\n\
         piece 0 65535 32\nGET /a.txt HTTP/1.1\r\nHost: a\r\n\r\n\n\
         piece 0 65535 32\nGET /a.txt HTTP/1.1\r\nHost: a\r\n\r\n\n\
         piece 0 65535 32\nGET /a.txt HTTP/1.1\r\nHost: a\r\n\r\n\nstop 9\n",
        true,
    ),
    // Lives of a number: with half a request each, closed by a message, and closed by one that breaks a rule.
    (
        "haboob-traffic 1 784111777\npiece 0 7 16\nGET /a.txt HTTP/\nend 0 7\n\
         piece 0 7 16\n1.1\r\nHost: a\r\n\r\n\nend 0 7\n\
         piece 0 7 83\nGET /a.txt HTTP/1.1\r\nHost: a\r\nConnection: close\r\n\r\nGET /a.txt HTTP/1.1\r\n\
         Host: a\r\n\r\n\npiece 0 7 32\nGET /a.txt HTTP/1.1\r\nHost: a\r\n\r\n\nend 0 7\n\
         piece 0 7 32\nGET /a.txt HTTP/1.1\r\nHost: a\r\n\r\n\npiece 0 7 18\nGET / HTTP/1.1\r\n\r\n\n\
         piece 0 7 32\nGET /a.txt HTTP/1.1\r\nHost: a\r\n\r\n\nend 0 7\n\
         piece 0 7 32\nGET /a.txt HTTP/1.1\r\nHost: a\r\n\r\n\nstop 12\n",
        true,
    ),
    // Lives of two numbers, which overlap, with requests in two pieces.
    (
        "haboob-traffic 1 784111777\npiece 0 3 16\nGET /a.txt HTTP/\n\
         piece 0 9 32\nGET /a.txt HTTP/1.1\r\nHost: a\r\n\r\n\nend 0 9\npiece 0 3 16\n1.1\r\nHost: a\r\n\r\n\n\
         piece 0 9 16\nGET /a.txt HTTP/\nend 0 3\npiece 0 3 32\nGET /a.txt HTTP/1.1\r\nHost: a\r\n\r\n\n\
         piece 0 9 16\n1.1\r\nHost: a\r\n\r\n\nend 0 9\nend 0 3\n\
         piece 0 9 32\nGET /a.txt HTTP/1.1\r\nHost: a\r\n\r\n\nstop 11\n",
        true,
    ),
    // Lives with tiers of their own, and ends of a number that has none.
    (
        "haboob-traffic 1 784111777\ntier 7 3\npiece 0 7 32\nGET /a.txt HTTP/1.1\r\nHost: a\r\n\r\n\n\
         piece 0 7 32\nGET /a.txt HTTP/1.1\r\nHost: a\r\n\r\n\n\
         piece 0 7 32\nGET /a.txt HTTP/1.1\r\nHost: a\r\n\r\n\nend 0 7\nend 0 7\n\
         piece 0 7 32\nGET /a.txt HTTP/1.1\r\nHost: a\r\n\r\n\nend 0 7\ntier 7 1\n\
         piece 0 7 32\nGET /a.txt HTTP/1.1\r\nHost: a\r\n\r\n\nend 0 7\ntier 7 3\n\
         piece 0 7 32\nGET /a.txt HTTP/1.1\r\nHost: a\r\n\r\n\nend 0 7\n\
         piece 0 7 32\nGET /a.txt HTTP/1.1\r\nHost: a\r\n\r\n\nstop 15\n",
        true,
    ),
    // A piece that is cut.
    (
        "haboob-capture 1 784111777\npiece 0 0 32\nGET /a.txt HTTP/1.1\r\nHost: a\r\n\r\n\n\
         piece 0 1 32\nGET /a.txt HTTP/1.1\r\nHost: a\r\n\r\n\npiece 0 2 32\nGET /a.txt",
        false,
    ),
    // A piece after its connection's end.
    (
        "haboob-capture 1 784111777\npiece 0 0 32\nGET /a.txt HTTP/1.1\r\nHost: a\r\n\r\n\nend 0 0\n\
         piece 0 1 32\nGET /a.txt HTTP/1.1\r\nHost: a\r\n\r\n\n\
         piece 0 0 32\nGET /a.txt HTTP/1.1\r\nHost: a\r\n\r\n\nstop 4\n",
        false,
    ),
    // A tick that falls.
    (
        "haboob-capture 1 784111777\npiece 7 0 32\nGET /a.txt HTTP/1.1\r\nHost: a\r\n\r\n\n\
         piece 6 1 32\nGET /a.txt HTTP/1.1\r\nHost: a\r\n\r\n\nstop 2\n",
        false,
    ),
    // A byte after the last line.
    (
        "haboob-capture 1 784111777\npiece 0 0 32\nGET /a.txt HTTP/1.1\r\nHost: a\r\n\r\n\nstop 1\n.",
        false,
    ),
    // No first line.
    ("haboob-capture 3 784111777\nstop 0\n", false),
];

/// A block with a field of so many letters.
fn block_of(alloc: Global, letters: usize, end: &str) -> Result<String, AllocError> {
    let field = "a".repeat(alloc, letters)?;
    format!(in alloc; "GET /a.txt HTTP/1.1\r\nHost: a\r\nX: {field}{end}")
}

/// A capture of the longest block, of 8,192 bytes, and of one that is too long by a byte.
pub fn longest_blocks(alloc: Global) -> Result<String, AllocError> {
    let longest = block_of(alloc, 8155, "\r\n\r\n")?;
    let longer = block_of(alloc, 8156, "\r\n\r")?;
    capture_of(
        alloc,
        &[(0, 0, &longest), (0, 0, &longer), (1_000_000, 0, "\n")],
    )
}
