//! Media types by extensions, and the fields of a file.

ghost use Rattle.std.specs.Prelude.{◌≡◌, ◌==◌, IfOk, MatchOption, false, string_bytes, map};
ghost use Rattle.std.specs.Char.{to_ascii_lowercase};
ghost use Rattle.std.specs.List.{after_last, list_any};
ghost use Rattle.paths.specs.Reference.{slash};
ghost use Rattle.page_cache.specs.Reference.{media_by_extension, media_of, media_text};
ghost use Rattle.page_cache.specs.Pages.{IsAfterLast};
ghost use Rattle.page_cache.specs.Pages.{entity_fields};

use itoa::Buffer;
use std::alloc::{AllocError, Global};

/// The media type of a file.
#[derive(Clone, Copy, Debug, PartialEq, Eq)]
pub enum MediaType {
    Html,
    Css,
    JavaScript,
    Json,
    Plain,
    Svg,
    Png,
    Jpeg,
    Gif,
    OctetStream,
}

impl MediaType {
    /// The media type of a file of this name, by its extension: what stands after the last dot of the last part,
    /// without regard to case.
    #[tactic(auto, unfolding(crate::specs::Reference::media_of))]
    pub fn of_name(name: &[u8]) -> MediaType
        ensures { result ≡ media_of name.now }
    {
        match after_last(last_part(name), b'.') {
            Some(extension) => MediaType::by_extension(extension),
            None => MediaType::OctetStream,
        }
    }

    /// The name of the type (RFC 9110, 8.3.1).
    pub fn text(self) -> &'static str
        ensures { result.now ≡ media_text self }
    {
        match self {
            MediaType::Html => "text/html",
            MediaType::Css => "text/css",
            MediaType::JavaScript => "text/javascript",
            MediaType::Json => "application/json",
            MediaType::Plain => "text/plain",
            MediaType::Svg => "image/svg+xml",
            MediaType::Png => "image/png",
            MediaType::Jpeg => "image/jpeg",
            MediaType::Gif => "image/gif",
            MediaType::OctetStream => "application/octet-stream",
        }
    }

    fn by_extension(extension: &[u8]) -> MediaType
        ensures { result ≡ media_by_extension (map to_ascii_lowercase extension.now) }
    {
        if extension.eq_ignore_ascii_case(b"html") || extension.eq_ignore_ascii_case(b"htm") {
            MediaType::Html
        } else if extension.eq_ignore_ascii_case(b"css") {
            MediaType::Css
        } else if extension.eq_ignore_ascii_case(b"js") {
            MediaType::JavaScript
        } else if extension.eq_ignore_ascii_case(b"json") {
            MediaType::Json
        } else if extension.eq_ignore_ascii_case(b"txt") {
            MediaType::Plain
        } else if extension.eq_ignore_ascii_case(b"svg") {
            MediaType::Svg
        } else if extension.eq_ignore_ascii_case(b"png") {
            MediaType::Png
        } else if extension.eq_ignore_ascii_case(b"jpg")
            || extension.eq_ignore_ascii_case(b"jpeg")
        {
            MediaType::Jpeg
        } else if extension.eq_ignore_ascii_case(b"gif") {
            MediaType::Gif
        } else {
            MediaType::OctetStream
        }
    }
}

/// What stands after the last such byte of a text, where it has one.
fn after_last(text: &[u8], mark: u8) -> Option<&[u8]>
    ensures { MatchOption result (list_any (λ b. b == mark) text.now ≡ false)
        (λ rest. IsAfterLast mark text.now rest.now) }
{
    match text.iter().rposition(|byte| *byte == mark) {
        Some(at) => Some(&text[at + 1..]),
        None => None,
    }
}

/// The last part of a name.
fn last_part(name: &[u8]) -> &[u8]
    ensures { result.now ≡ after_last (λ b. b == slash) name.now }
{
    match after_last(name, b'/') {
        Some(part) => part,
        None => name,
    }
}

/// Room for the fields of any content, in bytes.
const FIELDS_CAPACITY: usize = 96;

/// The fields `Content-Type` and `Content-Length` of a content of this type and length, each with CR LF after it
/// (RFC 9110, 8.3 and 8.6).
pub fn entity_fields(alloc: Global, media: MediaType, len: usize) -> Result<String, AllocError>
    ensures { IfOk result (λ text. string_bytes text ≡ entity_fields media len) }
{
    entity_fields_before(alloc, media, len, 0)
}

/// The fields of a content, in a text that has room for n bytes after them.
#[tactic(auto, unfolding(crate::specs::Pages::entity_fields))]
pub(crate) fn entity_fields_before(
    alloc: Global,
    media: MediaType,
    len: usize,
    following: usize,
) -> Result<String, AllocError>
    ensures { IfOk result (λ text. string_bytes text ≡ entity_fields media len) }
{
    let mut text = String::with_capacity(alloc, FIELDS_CAPACITY.saturating_add(following))?;
    text.push_str("Content-Type: ")?;
    text.push_str(media.text())?;
    text.push_str("\r\nContent-Length: ")?;
    text.push_str(Buffer::new().format(len))?;
    text.push_str("\r\n")?;
    Ok(text)
}
