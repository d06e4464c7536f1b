//! Lines and runs at the end of what a text may take.
use devices::{Input, Stop, number, read_byte_of, read_line, read_long_line, read_run};

/// A text, how many bytes of it may be taken, and the length of its first line.
static LINES: [(&str, usize, Result<usize, Stop>); 13] = [
    ("ab\ncd", 100, Ok(2)),
    ("\n", 100, Ok(0)),
    ("ab", 100, Err(Stop::Cut)),
    ("ab", 2, Err(Stop::Cut)),
    ("ab\n", 2, Err(Stop::TooLarge)),
    ("ab\n", 3, Ok(2)),
    (
        "xxxxxxxxxxxxxxxxxxxxxxxxxxxxxxxxxxxxxxxxxxxxxxxxxxxxxxxxxxxxxxxxxx",
        65,
        Err(Stop::TooLong),
    ),
    (
        "xxxxxxxxxxxxxxxxxxxxxxxxxxxxxxxxxxxxxxxxxxxxxxxxxxxxxxxxxxxxxxxxxx",
        64,
        Err(Stop::TooLarge),
    ),
    (
        "xxxxxxxxxxxxxxxxxxxxxxxxxxxxxxxxxxxxxxxxxxxxxxxxxxxxxxxxxxxxxxx\nab",
        100,
        Ok(63),
    ),
    (
        "xxxxxxxxxxxxxxxxxxxxxxxxxxxxxxxxxxxxxxxxxxxxxxxxxxxxxxxxxxxxxxxx\nab",
        100,
        Ok(64),
    ),
    (
        "xxxxxxxxxxxxxxxxxxxxxxxxxxxxxxxxxxxxxxxxxxxxxxxxxxxxxxxxxxxxxxxxx\nab",
        100,
        Err(Stop::TooLong),
    ),
    (
        "xxxxxxxxxxxxxxxxxxxxxxxxxxxxxxxxxxxxxxxxxxxxxxxxxxxxxxxxxxxxxxxx\nab",
        65,
        Ok(64),
    ),
    (
        "xxxxxxxxxxxxxxxxxxxxxxxxxxxxxxxxxxxxxxxxxxxxxxxxxxxxxxxxxxxxxxxx\nab",
        64,
        Err(Stop::TooLarge),
    ),
];

/// The length of a text's first line, the byte after it, and how many more may be taken then. A line that isn't the
/// front of the text counts as the longest that there can be.
fn line_and_byte(
    text: &str,
    limit: usize,
    ahead: bool,
    long: bool,
) -> Result<(usize, Result<u8, Stop>, usize), Stop> {
    let mut input = if ahead {
        Input::ahead(text.as_bytes())
    } else {
        Input::new(text.as_bytes())
    };
    let mut left = limit;
    let line = if long {
        read_long_line(&mut input, &mut left, 6, b"piece ", 12)?
    } else {
        read_line(&mut input, &mut left)?
    };
    let byte = read_byte_of(&mut input, &mut left);
    let is_front = text.as_bytes().starts_with(line.as_slice());
    let len = if is_front {
        line.as_slice().len()
    } else {
        usize::MAX
    };
    Ok((len, byte, left))
}

/// An input that reads ahead gives the same line, and the same byte after it, as one that does not.
#[test]
fn lines_of_either_input(rt: HostRuntime) {
    for (text, limit, want) in &LINES {
        let one = line_and_byte(text, *limit, false, false);
        let len = match one {
            Ok((len, _, _)) => Ok(len),
            Err(stop) => Err(stop),
        };
        assert!(rt; len == *want, "{text}");
        let ahead = line_and_byte(text, *limit, true, false);
        let long = line_and_byte(text, *limit, true, true);
        assert!(rt; (ahead, long) == (one, one), "{text}");
    }
}

/// A reader that was lent to an input stands after the line that was read, and not further.
#[test]
fn lent_reader_stands_after_the_line(rt: HostRuntime) {
    for text in [
        "end 0\nrest",
        "piece 0 1 2\nrest",
        "piece 100 200 300\nrest",
    ] {
        let mut reader = text.as_bytes();
        let mut input = Input::new(&mut reader);
        let read = read_long_line(&mut input, &mut 100, 6, b"piece ", 12).is_ok();
        drop(input);
        assert!(rt; (read, reader) == (true, b"rest".as_slice()));
    }
}

/// What was read ahead of a line's end is given by the next calls.
#[test]
fn what_was_read_ahead_comes_next(rt: HostRuntime) {
    let mut input = Input::ahead(b"end 0\nab\nrest".as_slice());
    let mut left = 100;
    let long = read_long_line(&mut input, &mut left, 6, b"piece ", 12).is_ok();
    let byte = read_byte_of(&mut input, &mut left);
    let line = read_line(&mut input, &mut left).is_ok();
    assert!(rt; (long, byte, line, left) == (true, Ok(b'a'), true, 91));
    let mut capacity = [0; 8];
    let came = input.read_some(&mut capacity).unwrap_or(0);
    assert!(rt; &capacity[..came] == b"rest".as_slice());
}

/// A text, how many bytes of it may be taken, the length of a run, and how many bytes may be taken then.
static RUNS: [(&str, usize, usize, Result<usize, Stop>); 7] = [
    ("abc", 100, 3, Ok(97)),
    ("abc", 3, 3, Ok(0)),
    ("abc", 0, 0, Ok(0)),
    ("abc", 2, 3, Err(Stop::TooLarge)),
    ("ab", 2, 3, Err(Stop::Cut)),
    ("ab", 100, 3, Err(Stop::Cut)),
    ("", 0, 1, Err(Stop::Cut)),
];

#[test]
fn runs(rt: HostRuntime) {
    for (text, limit, count, want) in &RUNS {
        let mut input = Input::new(text.as_bytes());
        let mut left = *limit;
        let got = match read_run(rt.alloc(), &mut input, &mut left, *count) {
            Ok(_) => Ok(left),
            Err(stop) => Err(stop),
        };
        assert!(rt; got == *want);
    }
}

#[test]
fn a_byte_further(rt: HostRuntime) {
    let mut input = Input::new(b"ab".as_slice());
    let mut left = 1;
    let first = (read_byte_of(&mut input, &mut left), left);
    assert!(rt; first == (Ok(b'a'), 0));
    let second = read_byte_of(&mut input, &mut left);
    let third = read_byte_of(&mut input, &mut left);
    assert!(rt; (second, third) == (Err(Stop::TooLarge), Err(Stop::Cut)));
}

static DECIMALS: [(&str, Option<u64>); 11] = [
    ("0", Some(0)),
    ("1073741824", Some(1_073_741_824)),
    ("18446744073709551615", Some(18_446_744_073_709_551_615)),
    ("18446744073709551616", Some(18_446_744_073_709_551_615)),
    (
        "99999999999999999999999999999999999999999999",
        Some(18_446_744_073_709_551_615),
    ),
    ("", None),
    ("00", None),
    ("01", None),
    ("-1", None),
    ("1 ", None),
    ("1a", None),
];

#[test]
fn decimals(rt: HostRuntime) {
    for (field, want) in &DECIMALS {
        assert!(rt; number(field.as_bytes()) == *want, "{field}");
    }
}
