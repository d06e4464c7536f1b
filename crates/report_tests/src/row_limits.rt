//! The longest numbers of a row, and fields of bytes of each kind.
use admission::{Decision, Outlook};
use decision_table::{Offered, Row, write_heading, write_row};
use devices::Output;
use std::alloc::Global;

/// Every number has the most digits that its type holds.
static LONGEST: Row = Row {
    number: usize::MAX,
    conn: usize::MAX,
    tick: 8_446_744_073_709_551_615,
    tier: u8::MAX,
    status: u16::MAX,
    pools: true,
    offered: Some(Offered {
        service: 8_446_744_073_709_551_615,
        pool: u8::MAX,
        found: Outlook {
            credit: u64::MAX,
            rate: u64::MAX,
            free: u64::MAX,
        },
        decision: Decision::Admitted { finish: u64::MAX },
    }),
};

/// The heading and this row.
fn table_of(alloc: Global, row: &Row, method: &[u8], target: &[u8]) -> Option<Vec<u8>> {
    let mut text = Vec::new(alloc);
    let mut output = Output::new(&mut text);
    let is_written = write_heading(&mut output, row.pools).is_ok()
        && write_row(&mut output, row, method, target).is_ok();
    if is_written { Some(text) } else { None }
}

#[test]
fn longest_numbers(rt: HostRuntime) {
    let text = table_of(rt.alloc(), &LONGEST, b"PUT", b"*").expect(&rt, "memory");
    let want =
        "number,connection,tick,tier,status,decision,service,credit,rate,start,finish,waited,pool,method,target\n\
         18446744073709551615,18446744073709551615,8446744073709551615,255,65535,admitted,8446744073709551615,\
         18446744073709551615,18446744073709551615,10000000000000000000,18446744073709551615,\
         10000000000000000000,255,PUT,*\n";
    assert_eq!(rt; text.as_slice(), want.as_bytes());
}

static BYPASSED: Row = Row {
    number: 0,
    conn: 1,
    tick: 2,
    tier: 3,
    status: 400,
    pools: false,
    offered: None,
};

/// A method, a target, and how they stand in a row. Visible ASCII but the quote, the percent sign, the comma and the
/// semicolon stands as it is within a field. What begins as formulas do in a spreadsheet, or with a byte that it may
/// leave before one (OWASP, CSV injection: the equals, plus and minus signs, the at sign, tab and carriage return), is
/// encoded by RFC 3986, 2.1; a field within which nothing begins a cell stays.
static FIELDS: [(&[u8], &[u8], &str); 13] = [
    (
        b"!#$&+-~=@",
        b"\x00\x1f \x7f\x80\xffaz\n\"%,;",
        "!#$&+-~=@,%00%1F%20%7F%80%FFaz%0A%22%25%2C%3B",
    ),
    (b"=1+1", b"=1+1", "%3D1+1,%3D1+1"),
    (b"+1=1", b"+1=1", "%2B1=1,%2B1=1"),
    (b"-1-1", b"-1-1", "%2D1-1,%2D1-1"),
    (b"@SUM(A1)", b"@SUM(A1)", "%40SUM(A1),%40SUM(A1)"),
    (b"\t=1", b"\t=1", "%09=1,%09=1"),
    (b"\r@1", b"\r@1", "%0D@1,%0D@1"),
    (b"==1", b"==1", "%3D=1,%3D=1"),
    (b"=", b"=", "%3D,%3D"),
    (b"", b"", ","),
    (b"a;=1+1", b"a;=1+1", "a%3B=1+1,a%3B=1+1"),
    (b"a,@b\"-c", b"a,@b\"-c", "a%2C@b%22-c,a%2C@b%22-c"),
    (b"/a=b+c-d@e", b"/a=b+c-d@e", "/a=b+c-d@e,/a=b+c-d@e"),
];

#[test]
fn fields_of_each_kind(rt: HostRuntime) {
    for (method, target, fields) in &FIELDS {
        let text = table_of(rt.alloc(), &BYPASSED, method, target).expect(&rt, "memory");
        let want = format!(in rt.alloc(); "\n0,1,2,3,400,bypassed,,,,,,,{fields}\n").expect(
            &rt, "memory",
        );
        assert!(rt; text.ends_with(want.as_bytes()), "{fields}");
    }
}
