//! The empty lines and the block at the start of a text.
ghost use Rattle.std.specs.Prelude.{◌≡◌, ◌≢◌, ◌+◌, ◌<◌, ◌≤◌, ℕ, length, slice_index, IfSome, IfNone};
ghost use Rattle.std.specs.Int.{bit_at};
ghost use Rattle.http_requests.specs.Reference.{line_feed, max_block_bytes, NoBlock, blank_len, IsBlock};
ghost use Rattle.http_requests.specs.Scanning.{ends_at};
ghost use Rattle.http_requests.specs.Scanning.{IsFound, NoEndIn, MarksFeeds};

use memchr::{memchr, memchr_iter};
use std::simd::prelude::*;

/// The most bytes that a block may have. A longer one is a fault.
pub const MAX_BLOCK_BYTES: usize = 8192;

/// How many bytes are looked at together.
const LANES: usize = 64;

/// What stands at the start of a text.
#[derive(Clone, Copy)]
pub enum Found {
    /// No block is whole: how many bytes of empty lines the text begins with.
    Wait(usize),
    /// A block beyond the limit: the place after its last byte within the limit.
    Over(usize),
    /// A whole block: its first place, and its length.
    Whole(usize, usize),
}

/// Whether a block ends with the line feed at this place: whether LF, or LF CR, stands before it.
#[inline(always)]
#[tactic(auto, unfolding(crate::specs::Scanning::ends_at))]
fn ends_with(s: &[u8], feed: usize) -> bool
    requires two { 2 ≤ feed }
    requires within { feed < length s.now }
    requires feed { slice_index s.now feed ≡ line_feed }
    ensures { result ≡ ends_at s.now (feed + 1) }
{
    let before = s[feed - 1];
    before == b'\n' || (before == b'\r' && s[feed - 2] == b'\n')
}

/// How many bytes the empty lines take with which a text begins (RFC 9112, section 2.2).
#[tactic(auto, using(crate::proofs::FrontLemmas::blank_le, crate::proofs::FrontLemmas::blank_at))]
fn blanks(s: &[u8]) -> usize
    ensures is { result ≡ blank_len s.now }
    ensures within { result ≤ length s.now }
{
    let mut i: usize = 0;
    while i < s.len()
        && (s[i] == b'\n' || (s[i] == b'\r' && s.len() - i > 1 && s[i + 1] == b'\n'))
    {
        i += 1;
    }
    i
}

/// A mark for each line feed among the `LANES` bytes from `at` on, that of the first in the lowest bit.
#[inline(always)]
fn feeds_at(s: &[u8], at: usize) -> u64
    requires { at + LANES ≤ length s.now }
    ensures { MarksFeeds s.now at result }
{
    let bytes = u8x64::from_slice(&s[at..]);
    bytes.simd_eq(u8x64::splat(b'\n')).to_bitmask()
}

/// The place of the lowest bit.
#[inline(always)]
fn lowest(marks: u64) -> usize
    requires { marks ≢ 0 }
    ensures bound { result < 64 }
    ensures set { bit_at marks result ≡ 1 }
    ensures below { (k : ℕ) → k < result → bit_at marks k ≡ 0 }
{
    marks.trailing_zeros() as usize
}

/// The other bits.
#[inline(always)]
fn without(marks: u64, bit: usize) -> u64
    requires bound { bit < 64 }
    requires set { bit_at marks bit ≡ 1 }
    ensures smaller { result < marks }
    ensures kept { (k : ℕ) → k < 64 → k ≢ bit → bit_at result k ≡ bit_at marks k }
    ensures no_more { (k : ℕ) → bit_at result k ≡ 1 → bit_at marks k ≡ 1 }
{
    marks & !(1 << bit)
}

/// The first end of a block among the `LANES` bytes from `at` on, whose line feeds are marked. No other byte is looked
/// at, but for the two before each of them.
#[inline(always)]
fn end_among(s: &[u8], at: usize, feeds: u64) -> Option<usize>
    requires two { 2 ≤ at }
    requires within { at + LANES ≤ length s.now }
    requires limit { at + LANES ≤ max_block_bytes }
    requires feeds { MarksFeeds s.now at feeds }
    requires none { NoEndIn at s.now }
    ensures some { IfSome result (λ e. IsBlock s.now e) }
    ensures none { IfNone result (NoEndIn (at + LANES) s.now) }
{
    let mut left = feeds;
    while left != 0 {
        let feed = lowest(left);
        if ends_with(s, at + feed) {
            return Some(at + feed + 1);
        }
        left = without(left, feed);
    }
    None
}

/// The first end of a block up to `last`, where none stands up to `at`.
fn end_up_to(s: &[u8], at: usize, last: usize) -> Option<usize>
    requires two { 2 ≤ at }
    requires ordered { at ≤ last }
    requires within { last ≤ length s.now }
    requires limit { last ≤ max_block_bytes }
    requires none { NoEndIn at s.now }
    ensures some { IfSome result (λ e. IsBlock s.now e) }
    ensures none { IfNone result (NoEndIn last s.now) }
{
    for found in memchr_iter(b'\n', &s[at..last]) {
        let feed = at + found;
        if ends_with(s, feed) {
            return Some(feed + 1);
        }
    }
    None
}

/// The place of the next line feed up to `last`, or `last`.
fn next_feed(s: &[u8], at: usize, last: usize) -> usize
    requires ordered { at ≤ last }
    requires within { last ≤ length s.now }
    requires none { NoEndIn at s.now }
    ensures low { at ≤ result }
    ensures high { result ≤ last }
    ensures none { NoEndIn result s.now }
{
    match memchr(b'\n', &s[at..last]) {
        Some(found) => at + found,
        None => last,
    }
}

/// The first end of a block within the limit, where none stands in the first `seen` bytes of a text that doesn't begin
/// with an empty line. Only the line feeds after those are looked at. A long line is passed over by larger steps.
fn block_end(s: &[u8], seen: usize) -> Option<usize>
    requires begins { blank_len s.now ≡ 0 }
    requires none { NoEndIn seen s.now }
    ensures some { IfSome result (λ e. IsBlock s.now e) }
    ensures none { IfNone result (NoBlock s.now) }
{
    let last = s.len().min(MAX_BLOCK_BYTES);
    // No block ends up to the second byte.
    let mut at = seen.max(2);
    if at >= last {
        return None;
    }
    while last - at >= LANES {
        let feeds = feeds_at(s, at);
        if let Some(end) = end_among(s, at, feeds) {
            return Some(end);
        }
        at += LANES;
        if feeds == 0 {
            at = next_feed(s, at, last);
        }
    }
    end_up_to(s, at, last)
}

/// What stands at the start of a text, where no block ends in its first `seen` bytes. Only the bytes
/// after those are looked at, and a few before.
#[tactic(auto, using(crate::proofs::EndLaws::ends_within))]
pub fn find(r: &[u8], seen: usize) -> Found
    requires within { seen ≤ length r.now }
    requires limit { seen ≤ max_block_bytes }
    requires none { NoEndIn seen r.now }
    ensures { IsFound r.now result }
{
    let start = blanks(r);
    let seen = if start == 0 { seen } else { 0 };
    match block_end(&r[start..], seen) {
        Some(len) => Found::Whole(start, len),
        None => {
            if r.len() - start >= MAX_BLOCK_BYTES {
                Found::Over(start + MAX_BLOCK_BYTES)
            } else {
                Found::Wait(start)
            }
        }
    }
}
