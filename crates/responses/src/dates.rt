//! The texts of dates, each kept for the next head of the same second.
ghost use Rattle.std.specs.Prelude.{◌≡◌, ◌≤◌};
ghost use Rattle.paths.specs.Snapshots.{max_time};
ghost use Rattle.responses.specs.Reference.{imf_date};

use httpdate::HttpDate;

/// A second since 1970-01-01, and its text.
#[derive(Clone, Copy)]
pub(crate) struct DateText {
    pub(crate) second: u64,
    pub(crate) text: [u8; 29],
    ghost is: { text ≡ imf_date second },
}

impl DateText {
    /// The text of a second.
    pub(crate) fn of(second: u64) -> DateText
        requires { second ≤ max_time }
        ensures { result.second ≡ second }
    {
        let date = HttpDate::from_unix_secs(second).unwrap();
        DateText {
            second,
            text: date.to_bytes(),
        }
    }

    /// Turns to a second, whose text is made where it is another one.
    pub(crate) fn turn_to(&mut self, second: u64)
        requires { second ≤ max_time }
        ensures { self.new.second ≡ second }
    {
        if self.second != second {
            *self = DateText::of(second);
        }
    }
}

/// The last dates of two fields of a head.
#[derive(Clone, Copy)]
pub(crate) struct Dates {
    /// That of Date.
    pub(crate) date: DateText,
    /// That of Last-Modified.
    pub(crate) last_modified: DateText,
}

impl Dates {
    /// Both of this second.
    pub(crate) fn of(second: u64) -> Dates
        requires { second ≤ max_time }
    {
        let date = DateText::of(second);
        Dates {
            date,
            last_modified: date,
        }
    }
}
