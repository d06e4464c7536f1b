//! The text of a second in 24 bytes.

ghost use Rattle.std.specs.Prelude.{◌≡◌, ◌≤◌, IfSome, IfNone, ◌<◌};
ghost use Rattle.slim.specs.Blocks.{last_second, short_date};

use httpdate::HttpDate;

/// A second since 1970-01-01 as `Sun Nov 06 08:49:37 1994` (RFC 9110, 5.6.7), or nothing past the year 9999.
pub(crate) fn short_date(second: u64) -> Option<[u8; 24]>
    ensures some { IfSome result (λ text. (text ≡ short_date second) × (second ≤ last_second)) }
    ensures none { IfNone result (last_second < second) }
{
    let Ok(date) = HttpDate::from_unix_secs(second) else {
        return None;
    };
    let [
        w0,
        w1,
        w2,
        _,
        _,
        d0,
        d1,
        _,
        m0,
        m1,
        m2,
        _,
        y0,
        y1,
        y2,
        y3,
        _,
        h0,
        h1,
        _,
        i0,
        i1,
        _,
        s0,
        s1,
        ..
    ] = date.to_bytes();
    Some([
        w0, w1, w2, b' ', m0, m1, m2, b' ', d0, d1, b' ', h0, h1, b':', i0, i1, b':', s0, s1, b' ',
        y0, y1, y2, y3,
    ])
}
