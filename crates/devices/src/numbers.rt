//! Decimal numbers, one or several in a line.

ghost use Rattle.std.specs.Prelude.{◌≡◌, ◌==◌, ◌<◌, length, position, IfSome};
ghost use Rattle.std.specs.Option.{option_map};
ghost use Rattle.devices.specs.Numbers.{space, number_of, number_and_rest, three_numbers};

/// The number of a decimal: `0`, or digits of which the first isn't `0`. One past 64 bits stands as the greatest of 64
/// bits.
pub fn number(field: &[u8]) -> Option<u64>
    ensures { result ≡ number_of field.now }
{
    if field.is_empty() || (field[0] == b'0' && field.len() > 1) {
        return None;
    }
    let mut value = 0u64;
    for digit in field {
        if !digit.is_ascii_digit() {
            return None;
        }
        value = value
            .saturating_mul(10)
            .saturating_add(u64::from(*digit - b'0'));
    }
    Some(value)
}

/// Where the first space is.
fn first_space(text: &[u8]) -> Option<usize>
    ensures place { result ≡ position (λ b. b == space) text.now }
    ensures bound { IfSome result (λ at. at < length text.now) }
{
    text.iter().position(|byte| *byte == b' ')
}

/// The number before the first space, and what follows that space.
pub fn number_and_rest(text: &[u8]) -> Option<(u64, &[u8])>
    ensures { option_map (λ found. (found.0, found.1.now)) result ≡ number_and_rest text.now }
{
    match first_space(text) {
        Some(space) => match number(&text[..space]) {
            Some(first) => Some((first, &text[space + 1..])),
            None => None,
        },
        None => None,
    }
}

/// The numbers of three decimals that are parted by single spaces.
pub fn three_numbers(text: &[u8]) -> Option<(u64, u64, u64)>
    ensures { result ≡ three_numbers text.now }
{
    let (first, rest) = number_and_rest(text)?;
    let (second, rest) = number_and_rest(rest)?;
    let third = number(rest)?;
    Some((first, second, third))
}
