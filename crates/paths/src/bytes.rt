//! What is asked of the bytes of a name.

ghost use Rattle.std.specs.Prelude.{◌≡◌, ◌≤◌, length, take};
ghost use Rattle.std.specs.Str.{is_utf8};

/// Whether these bytes are UTF-8.
pub(crate) fn is_text(bytes: &[u8]) -> bool
    ensures { result ≡ is_utf8 bytes.now }
{
    match std::str::from_utf8(bytes) {
        Ok(_) => true,
        Err(_) => false,
    }
}

/// How many of their first bytes are the same in both.
pub(crate) fn shared_front(one: &[u8], other: &[u8]) -> usize
    ensures same { take result one.now ≡ take result other.now }
    ensures in_one { result ≤ length one.now }
    ensures in_other { result ≤ length other.now }
{
    let end = one.len().min(other.len());
    for at in 0..end {
        if one[at] != other[at] {
            return at;
        }
    }
    end
}
