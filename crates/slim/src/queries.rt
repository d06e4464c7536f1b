//! What becomes of the query of a target.

ghost use Rattle.std.specs.Prelude.{◌≡◌, ◌==◌, nat_eq, codes, position};
ghost use Rattle.std.specs.List.{list_any, starts_with, before_first};
ghost use Rattle.paths.specs.Reference.{number_sign, question_mark};
ghost use Rattle.slim.specs.Targets.{kept_target, without_query};

/// What becomes of the query of each target. No answer depends on it.
#[derive(Clone, Copy, Debug, PartialEq, Eq)]
pub enum Queries {
    /// Targets stay as they are.
    Kept,
    /// Targets lose their query.
    Dropped,
}

/// Whether a fragment stands in the target.
fn has_fragment(target: &[u8]) -> bool
    ensures { result ≡ list_any (λ b. b == number_sign) target.now }
{
    target.iter().any(|byte| *byte == b'#')
}

/// Where the query begins.
fn first_query(target: &[u8]) -> Option<usize>
    ensures { result ≡ position (λ b. b == question_mark) target.now }
{
    target.iter().position(|byte| *byte == b'?')
}

/// A target without its query (RFC 3986, 3.4): what stands before the first question mark. `#` alone stands for one
/// with a `#` in it, or a question mark in front, which is no target (RFC 9112, 3.2).
pub fn without_query(target: &[u8]) -> &[u8]
    ensures { result.now ≡ without_query target.now }
{
    if has_fragment(target) || target.starts_with(b"?") {
        return b"#";
    }
    match first_query(target) {
        Some(at) => &target[..at],
        None => target,
    }
}

/// What stays of a target.
pub(crate) fn kept_target(queries: Queries, target: &[u8]) -> &[u8]
    ensures { result.now ≡ kept_target queries target.now }
{
    match queries {
        Queries::Kept => target,
        Queries::Dropped => without_query(target),
    }
}
