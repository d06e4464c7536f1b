//! What a block says: the verdict of its head (RFC 9110 and RFC 9112).
ghost use Rattle.std.specs.Prelude.{◌≡◌, ◌≤◌, ◌==◌, false, true, codes, min, IfOk, MatchOption, MatchResult, Some};
ghost use Rattle.std.specs.Prelude.{None, IfSome, IfNone};
ghost use Rattle.httparse.specs.Grammar.{is_ows, trim_ows};
ghost use Rattle.httparse.specs.Spans.{span_bytes};
ghost use Rattle.std.specs.Str.Parse.{digits_value};
ghost use Rattle.std.specs.List.{list_all, list_any, slice_split};
ghost use Rattle.http_requests.specs.Reference.{max_body_bytes, is_get_or_head, IsModifiedSince, bad};
ghost use Rattle.http_requests.specs.Reference.{IsVerdict, same_text, values_of, is_host_byte, is_host_fault};
ghost use Rattle.http_requests.specs.Reference.{is_numeral, body_length, head_fault, has_option, is_closing};
ghost use Rattle.http_requests.specs.Lines.{LiesWithin, lines_at, Says, AreLines, AreNoted, and_if, is_there, AddsLine};
ghost use Rattle.http_requests.specs.Cutting.{IsExtent};
ghost use Rattle.http_requests.specs.declared.heads.Verdict.{Verdict as AVerdict};
ghost use Rattle.http_requests.specs.declared.messages.MessageFault.TheVariants.{Block};

use crate::messages::{Bytes, HttpVersion, Meaning, MessageFault};
use httparse::Status;
use httparse::spans::{EMPTY_HEADER_SPAN, HeaderSpan, Span, parse_request};
use httpdate::HttpDate;
use std::alloc::{AllocError, Global};

/// The most bytes that a body may have.
const MAX_BODY_BYTES: u64 = 65_536;

/// The most fields that a head may have.
const MAX_FIELDS: usize = 64;

/// Each byte that may stand in a host stands at its own place, and `#` at every other place.
static HOST_MAP: [u8; 256] = *b"\
    ################################\
    #!##$%&'()*+,-.#0123456789:;#=##\
    #ABCDEFGHIJKLMNOPQRSTUVWXYZ[#]#_\
    #abcdefghijklmnopqrstuvwxyz###~#\
    ################################\
    ################################\
    ################################\
    ################################";

/// The verdict of a block: what it is, and how many bytes of body follow it.
#[derive(Drop)]
pub struct Verdict {
    pub what: Meaning,
    pub length: u64,
}

/// The lines of one name in a head: where the only one's value stands.
#[derive(Clone, Copy)]
enum Lines {
    Absent,
    Once(Span),
    Repeated,
}

impl Lines {
    /// Adds a line with this value, where it has the name.
    #[inline(always)]
    fn add_if(&mut self, is_named: bool, value: Span)
        ensures { self.new ≡ and_if self.old is_named value }
    {
        if is_named {
            *self = match *self {
                Lines::Absent => Lines::Once(value),
                _ => Lines::Repeated,
            };
        }
    }

    /// Whether there is a line.
    fn is_there(self) -> bool
        ensures { result ≡ is_there self }
    {
        match self {
            Lines::Absent => false,
            _ => true,
        }
    }
}

/// The lines of each name that counts besides Host, as one pass over the fields finds them.
#[derive(Clone, Copy)]
struct Noted {
    coding: Lines,
    length: Lines,
    connection: Lines,
    none_match: Lines,
    since: Lines,
}

impl Noted {
    /// Adds a line to those of its name. Its length tells which names it may be.
    #[inline(always)]
    fn add(&mut self, name: &[u8], value: Span)
        ensures { AddsLine name.now value self.old self.new }
    {
        let len = name.len();
        if len == 10 {
            self.connection
                .add_if(same_text(name, b"connection"), value);
        } else if len == 13 {
            self.none_match
                .add_if(same_text(name, b"if-none-match"), value);
        } else if len == 14 {
            self.length
                .add_if(same_text(name, b"content-length"), value);
        } else if len == 17 {
            self.coding
                .add_if(same_text(name, b"transfer-encoding"), value);
            self.since
                .add_if(same_text(name, b"if-modified-since"), value);
        }
    }
}

/// Whether the texts are equal but for the case of ASCII letters.
fn same_text(a: &[u8], b: &[u8]) -> bool
    ensures { result ≡ same_text a.now b.now }
{
    a.eq_ignore_ascii_case(b)
}

/// Whether the byte is a space or a tab.
fn is_space(byte: u8) -> bool
    ensures { result ≡ is_ows byte }
{
    byte == b' ' || byte == b'\t'
}

/// The text without the spaces and tabs at both ends.
fn trim(text: &[u8]) -> &[u8]
    ensures { result.now ≡ trim_ows text.now }
{
    let mut start = 0;
    let mut end = text.len();
    while start < end && is_space(text[start]) {
        start += 1;
    }
    while start < end && is_space(text[end - 1]) {
        end -= 1;
    }
    &text[start..end]
}

/// Whether the byte may stand in a host.
fn is_host_byte(byte: u8) -> bool
    ensures { result ≡ is_host_byte byte }
{
    HOST_MAP[byte as usize] != b'#'
}

/// Whether each byte may stand in a host.
fn is_host(value: &[u8]) -> bool
    ensures { result ≡ list_all is_host_byte value.now }
{
    value.iter().all(|b| is_host_byte(*b))
}

/// The number that a value writes, or `None` where it is no number. One above the limit on a body
/// stands for each larger number.
fn number(value: &[u8]) -> Option<u64>
    ensures { MatchOption result (is_numeral value.now ≡ false)
        (λ n. (is_numeral value.now ≡ true) × (n ≡ min (digits_value 10 value.now) 65_537)) }
{
    if value.is_empty() {
        return None;
    }
    let mut number: u64 = 0;
    for digit in value {
        if !digit.is_ascii_digit() {
            return None;
        }
        number = (number * 10 + (*digit - b'0') as u64).min(MAX_BODY_BYTES + 1);
    }
    Some(number)
}

/// Whether the comma list has this option.
fn lists(value: &[u8], option: &[u8]) -> bool
    ensures { result ≡ list_any (λ part. same_text (trim_ows part) option.now)
        (slice_split (λ b. b == 44) value.now) }
{
    value
        .split(|b| *b == b',')
        .any(|part| same_text(trim(part), option))
}

/// Whether the method is one of the two that are served.
fn is_get_or_head(method: &[u8]) -> bool
    ensures { result ≡ is_get_or_head method.now }
{
    method == b"GET".as_slice() || method == b"HEAD".as_slice()
}

/// The verdict of a fault.
pub fn bad(fault: MessageFault) -> Verdict
    ensures { result ≡ bad fault }
{
    Verdict {
        what: Meaning::Bad(fault),
        length: 0,
    }
}

/// How a message goes on after its block.
#[derive(Clone, Copy)]
pub struct Extent {
    /// Whether the message ends the connection.
    pub closes: bool,
    /// How many bytes of body follow the block.
    pub length: u64,
}

/// The head of a request: the block that it is, and where its parts stand there.
#[derive(Drop)]
struct Head<'a> {
    block: &'a [u8],
    method: Span,
    target: Span,
    /// The minor version, such as `1` for `HTTP/1.1`.
    minor: u8,
    headers: &'a [HeaderSpan],
}

impl<'a> Head<'a> {
    /// The head that the whole block is, or `None` where it is no head. The places of its header lines are written to
    /// `headers`.
    fn parse(block: &'a [u8], headers: &'a mut [HeaderSpan; MAX_FIELDS]) -> Option<Head<'a>>
        ensures within { IfSome result LiesWithin }
        ensures says { IfSome result
            (λ head. (verdict : AVerdict) → Says head verdict → IsVerdict block.now verdict) }
        ensures none { IfNone result (IsVerdict block.now (bad Block)) }
    {
        match parse_request(block, headers) {
            Ok(Status::Complete(spans)) => {
                if spans.len == block.len() {
                    Some(Head {
                        block,
                        method: spans.method,
                        target: spans.path,
                        minor: spans.version,
                        headers: &headers[..spans.headers],
                    })
                } else {
                    None
                }
            }
            Ok(Status::Partial) => None,
            Err(_) => None,
        }
    }

    /// The lines of Host.
    fn host_lines(&self) -> Lines
        requires { LiesWithin self.now }
        ensures { AreLines self.now.block.now
            (values_of (codes "host") (lines_at self.now)) result }
    {
        let mut lines = Lines::Absent;
        for header in self.headers {
            let name = header.name.of(self.block);
            lines.add_if(same_text(name, b"host"), header.value);
        }
        lines
    }

    /// The lines of each other name that counts.
    fn note(&self) -> Noted
        requires { LiesWithin self.now }
        ensures { AreNoted self.now.block.now (lines_at self.now) result }
    {
        let mut noted = Noted {
            coding: Lines::Absent,
            length: Lines::Absent,
            connection: Lines::Absent,
            none_match: Lines::Absent,
            since: Lines::Absent,
        };
        for header in self.headers {
            noted.add(header.name.of(self.block), header.value);
        }
        noted
    }

    /// Whether Host is missing where it must stand, is repeated, or has a wrong byte (RFC 9112, section 3.2).
    fn is_host_fault(&self) -> bool
        requires { LiesWithin self.now }
        ensures { result ≡ is_host_fault self.now.minor
            (values_of (codes "host") (lines_at self.now)) }
    {
        match self.host_lines() {
            Lines::Absent => self.minor == 1,
            Lines::Once(value) => !is_host(value.of(self.block)),
            Lines::Repeated => true,
        }
    }

    /// The length of the body (RFC 9112, section 6.3), and the lines that tell the rest; or the first fault of the
    /// head. A head with a fault of Host is read no further.
    fn body_length(&self) -> Result<(u64, Noted), MessageFault>
        requires { LiesWithin self.now }
        ensures cases { MatchResult result
            (λ found. (head_fault self.now.minor (lines_at self.now) ≡ None)
            × (found.0 ≡ body_length (values_of (codes "content-length") (lines_at self.now))))
            (λ fault. head_fault self.now.minor (lines_at self.now) ≡ Some fault) }
        ensures noted { IfOk result
            (λ found. AreNoted self.now.block.now (lines_at self.now) found.1) }
        ensures small { IfOk result (λ found. found.0 ≤ max_body_bytes) }
    {
        if self.is_host_fault() {
            return Err(MessageFault::Host);
        }
        let noted = self.note();
        if noted.coding.is_there() {
            return Err(MessageFault::Coding);
        }
        match noted.length {
            Lines::Absent => Ok((0, noted)),
            Lines::Once(value) => match number(value.of(self.block)) {
                Some(n) if n <= MAX_BODY_BYTES => Ok((n, noted)),
                Some(_) => Err(MessageFault::BodySize),
                None => Err(MessageFault::Length),
            },
            Lines::Repeated => Err(MessageFault::Length),
        }
    }

    /// Whether one of several lines of Connection has this option.
    fn repeats_option(&self, option: &[u8]) -> bool
        requires { LiesWithin self.now }
        ensures { result ≡ has_option option.now (lines_at self.now) }
    {
        for header in self.headers {
            if same_text(header.name.of(self.block), b"connection")
                && lists(header.value.of(self.block), option)
            {
                return true;
            }
        }
        false
    }

    /// Whether a line of Connection has this option (RFC 9110, section 7.6.1).
    fn has_option(&self, noted: &Noted, option: &[u8]) -> bool
        requires within { LiesWithin self.now }
        requires noted { AreNoted self.now.block.now (lines_at self.now) noted.now }
        ensures { result ≡ has_option option.now (lines_at self.now) }
    {
        match noted.connection {
            Lines::Absent => false,
            Lines::Once(value) => lists(value.of(self.block), option),
            Lines::Repeated => self.repeats_option(option),
        }
    }

    /// Whether the connection ends after the reply (RFC 9112, section 9.3).
    fn is_closing(&self, noted: &Noted) -> bool
        requires within { LiesWithin self.now }
        requires noted { AreNoted self.now.block.now (lines_at self.now) noted.now }
        ensures { result ≡ is_closing self.now.minor (lines_at self.now) }
    {
        self.has_option(noted, b"close")
            || (self.minor == 0 && !self.has_option(noted, b"keep-alive"))
    }

    /// The second of If-Modified-Since, where it counts (RFC 9110, section 13.1.3).
    fn modified_since(&self, noted: &Noted) -> Option<u64>
        requires within { LiesWithin self.now }
        requires noted { AreNoted self.now.block.now (lines_at self.now) noted.now }
        ensures { IsModifiedSince (span_bytes self.now.block.now self.now.method)
            (lines_at self.now) result }
    {
        if !is_get_or_head(self.method.of(self.block)) || noted.none_match.is_there() {
            return None;
        }
        match noted.since {
            Lines::Once(value) => match HttpDate::parse_ascii(value.of(self.block)) {
                Ok(date) => Some(date.unix_secs()),
                Err(_) => None,
            },
            Lines::Absent => None,
            Lines::Repeated => None,
        }
    }

    /// What the head says.
    fn verdict(&self, alloc: Global) -> Result<Verdict, AllocError>
        requires { LiesWithin self.now }
        ensures says { IfOk result (Says self.now) }
        ensures small { IfOk result (λ verdict. verdict.length ≤ max_body_bytes) }
    {
        let (length, noted) = match self.body_length() {
            Ok(found) => found,
            Err(fault) => return Ok(bad(fault)),
        };
        Ok(Verdict {
            what: Meaning::Request {
                method: Bytes::copy(alloc, self.method.of(self.block))?,
                target: Bytes::copy(alloc, self.target.of(self.block))?,
                version: if self.minor == 0 {
                    HttpVersion::Http10
                } else {
                    HttpVersion::Http11
                },
                closes: self.is_closing(&noted),
                modified_since: self.modified_since(&noted),
            },
            length,
        })
    }

    /// How the message goes on after its block.
    fn extent(&self) -> Extent
        requires { LiesWithin self.now }
        ensures says { (verdict : AVerdict) × Says self.now verdict × IsExtent verdict result }
        ensures small { result.length ≤ max_body_bytes }
    {
        match self.body_length() {
            Ok((length, noted)) => {
                // A verdict tells this as well, and so it is there.
                let _since = self.modified_since(&noted);
                Extent {
                    closes: self.is_closing(&noted),
                    length,
                }
            }
            Err(_) => Extent {
                closes: true,
                length: 0,
            },
        }
    }
}

/// How a message of this block goes on. It takes no memory.
pub fn measure_block(block: &[u8]) -> Extent
    ensures says { (verdict : AVerdict) × IsVerdict block.now verdict × IsExtent verdict result }
    ensures small { result.length ≤ max_body_bytes }
{
    let mut headers = [EMPTY_HEADER_SPAN; MAX_FIELDS];
    match Head::parse(block, &mut headers) {
        Some(head) => head.extent(),
        None => Extent {
            closes: true,
            length: 0,
        },
    }
}

/// The verdict of a block.
pub fn read_block(alloc: Global, block: &[u8]) -> Result<Verdict, AllocError>
    ensures says { IfOk result (IsVerdict block.now) }
    ensures small { IfOk result (λ verdict. verdict.length ≤ max_body_bytes) }
{
    let mut headers = [EMPTY_HEADER_SPAN; MAX_FIELDS];
    match Head::parse(block, &mut headers) {
        Some(head) => head.verdict(alloc),
        None => Ok(bad(MessageFault::Block)),
    }
}
