//! The texts of requests.

use crate::random::Random;
use crate::site::{push_name, push_number};
use std::alloc::AllocError;

/// What browsers and others call themselves.
const AGENTS: [&str; 4] = [
    "Mozilla/5.0 (Windows NT 10.0; Win64; x64) AppleWebKit/537.36 (KHTML, like Gecko) Chrome/124.0.0.0 Safari/537.36",
    "Mozilla/5.0 (Macintosh; Intel Mac OS X 14_4_1) AppleWebKit/605.1.15 (KHTML, like Gecko) Version/17.4.1 Safari/605.1.15",
    "Mozilla/5.0 (X11; Linux x86_64; rv:125.0) Gecko/20100101 Firefox/125.0",
    "Mozilla/5.0 (iPhone; CPU iPhone OS 17_4 like Mac OS X) AppleWebKit/605.1.15 (KHTML, like Gecko) Mobile/15E148",
];

/// The fields with which a browser begins.
const CLIENT: &str = "Host: www.example.org\r\nConnection: keep-alive\r\n\
    sec-ch-ua: \"Chromium\";v=\"124\", \"Not-A.Brand\";v=\"99\"\r\nsec-ch-ua-mobile: ?0\r\n\
    sec-ch-ua-platform: \"Windows\"\r\n";

/// The fields that say what it fetches, and for what.
const FETCH: &str =
    "Sec-Fetch-Site: same-origin\r\nSec-Fetch-Mode: navigate\r\nSec-Fetch-Dest: document\r\n\
    Referer: https://www.example.org/pages/10000/0.html\r\nAccept-Encoding: gzip, deflate, br, zstd\r\n";

/// What a session's number is made of.
const DIGITS: &str =
    "4f1d9c27e0b85a36d7c2190fb6e48a53721fd09ce6b3a8457c0e91d26fa8b4355e20c7d18f936ab4\
    09e7d42c5b81fa6310d97e2cb5a4f8630ea91d57c24b8f6ed03a95c71b2f48e6a9d05c3718e4b2f76cd01a9385e7f2b4c\
    60d1a8e53f97b24dc08e615f2a93c7b4e8d1065fb72a39c84";

/// What they accept.
const ACCEPTED: [&str; 3] = [
    "text/html,application/xhtml+xml,application/xml;q=0.9,image/avif,image/webp,*/*;q=0.8",
    "image/avif,image/webp,image/apng,image/svg+xml,image/*,*/*;q=0.8",
    "*/*",
];

/// What they ask for the language.
const LANGUAGES: [&str; 3] = [
    "en-US,en;q=0.9",
    "de-DE,de;q=0.9,en-US;q=0.8,en;q=0.7",
    "fr",
];

/// Dates for which a file may be newer, or older.
const DATES: [&str; 3] = [
    "Sun, 01 Oct 2023 10:00:00 GMT",
    "Tue, 14 Nov 2023 22:13:20 GMT",
    "Wednesday, 01-Nov-23 08:00:00 GMT",
];

/// Lines that are no requests, or no good ones.
const FAULTS: [&str; 5] = [
    "GET /pages/10000/0.html\r\n\r\n",
    "GET /pages HTTP/1.1\r\nHost : a\r\n\r\n",
    "GET /pages HTTP/1.1\r\nHost: a\r\nHost: b\r\n\r\n",
    "POST /pages HTTP/1.1\r\nHost: a\r\nContent-Length: 12x\r\n\r\n",
    "GET http://[::1 HTTP/1.1\r\nHost: a\r\n\r\n",
];

/// The target of a request: mostly a file, now and then a folder, none, or one with a query or written in escapes.
fn push_target(text: &mut Vec<u8>, random: &mut Random, files: u64) -> Result<(), AllocError> {
    text.extend_from_slice(b"/")?;
    let number = random.below(files);
    match random.below(40) {
        0 => text.extend_from_slice(b"missing/page.html")?,
        1 => text.extend_from_slice(b"pages/10000")?,
        2 => {
            text.extend_from_slice(b"%70ages/../")?;
            push_name(text, number)?;
        }
        _ => push_name(text, number)?,
    }
    if random.below(6) == 0 {
        text.extend_from_slice(b"?utm_source=newsletter&id=")?;
        push_number(text, random.below(1_000_000))?;
    }
    Ok(())
}

/// The shortest request for a file.
pub fn push_short(text: &mut Vec<u8>, random: &mut Random, files: u64) -> Result<(), AllocError> {
    text.extend_from_slice(b"GET /")?;
    push_name(text, random.below(files))?;
    text.extend_from_slice(b" HTTP/1.1\r\nHost: a\r\n\r\n")
}

/// A field.
fn push_field(text: &mut Vec<u8>, name: &str, value: &str) -> Result<(), AllocError> {
    text.extend_from_slice(name.as_bytes())?;
    text.extend_from_slice(b": ")?;
    text.extend_from_slice(value.as_bytes())?;
    text.extend_from_slice(b"\r\n")
}

/// A cookie as long as they are.
fn push_cookie(text: &mut Vec<u8>, random: &mut Random) -> Result<(), AllocError> {
    text.extend_from_slice(b"Cookie: session=")?;
    let place = random.below(64) as usize;
    let length = random.below(160).wrapping_add(60) as usize;
    if let Some(digits) = DIGITS.as_bytes().get(place..place.saturating_add(length)) {
        text.extend_from_slice(digits)?;
    }
    text.extend_from_slice(b"; theme=dark; consent=all\r\n")
}

/// The fields that say what the client has, where it has something.
fn push_conditions(text: &mut Vec<u8>, random: &mut Random) -> Result<(), AllocError> {
    match random.below(5) {
        0 => push_field(text, "If-Modified-Since", random.one_of(&DATES)),
        1 => {
            push_field(text, "If-None-Match", "\"5f3c-1a2b3c4d5e6f7\"")?;
            push_field(text, "If-Modified-Since", random.one_of(&DATES))
        }
        _ => Ok(()),
    }
}

/// A request as a browser writes it.
pub fn push_browser(text: &mut Vec<u8>, random: &mut Random, files: u64) -> Result<(), AllocError> {
    let method = if random.below(30) == 0 {
        "HEAD "
    } else {
        "GET "
    };
    text.extend_from_slice(method.as_bytes())?;
    push_target(text, random, files)?;
    text.extend_from_slice(b" HTTP/1.1\r\n")?;
    text.extend_from_slice(CLIENT.as_bytes())?;
    push_field(text, "User-Agent", random.one_of(&AGENTS))?;
    push_field(text, "Accept", random.one_of(&ACCEPTED))?;
    text.extend_from_slice(FETCH.as_bytes())?;
    push_field(text, "Accept-Language", random.one_of(&LANGUAGES))?;
    push_cookie(text, random)?;
    push_conditions(text, random)?;
    text.extend_from_slice(b"\r\n")
}

/// A request with a body, of a known length or in chunks.
fn push_form(text: &mut Vec<u8>, random: &mut Random, files: u64) -> Result<(), AllocError> {
    text.extend_from_slice(b"POST ")?;
    push_target(text, random, files)?;
    text.extend_from_slice(b" HTTP/1.1\r\nHost: www.example.org\r\n")?;
    let length = random.below(2_000).wrapping_add(1);
    let chunked = random.below(2) == 0;
    if chunked {
        text.extend_from_slice(b"Transfer-Encoding: chunked\r\n\r\n7d0\r\n")?;
    } else {
        text.extend_from_slice(b"Content-Length: ")?;
        push_number(text, length)?;
        text.extend_from_slice(b"\r\n\r\n")?;
    }
    for _ in 0..if chunked { 2_000 } else { length } {
        text.push(b'x')?;
    }
    if chunked {
        text.extend_from_slice(b"\r\n0\r\n\r\n")?;
    }
    Ok(())
}

/// A request of any kind: one in 64 is none, or no good one.
pub fn push_any(text: &mut Vec<u8>, random: &mut Random, files: u64) -> Result<(), AllocError> {
    match random.below(64) {
        0 => text.extend_from_slice(random.one_of(&FAULTS).as_bytes()),
        1..=6 => push_form(text, random, files),
        7..=20 => push_short(text, random, files),
        _ => push_browser(text, random, files),
    }
}
