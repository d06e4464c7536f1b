//! The text of a row.

ghost use Rattle.std.specs.Prelude.{◌≡◌, ◌≤◌, ◌+◌, ◌++◌, length};
ghost use Rattle.arrayvec.specs.ArrayVec.{array_vec_len};
ghost use Rattle.decision_table.specs.Rows.{number_field, row_line, offered_fields, decision_field, found_fields};
ghost use Rattle.decision_table.specs.Rows.{pool_field, service_fields};

use crate::{Offered, Row};
use admission::Decision;
use arrayvec::ArrayVec;
use itoa::Buffer;

/// Room for a word and twelve numbers of 64 bits, each with a comma after it.
pub(crate) type Line = ArrayVec<u8, 264>;

/// Adds a number and a comma.
fn push_number(line: &mut Line, number: u64)
    requires { array_vec_len line.old ≤ 243 }
    ensures text { line.new.items ≡ line.old.items ++ number_field number }
    ensures len { array_vec_len line.new ≤ array_vec_len line.old + 21 }
{
    let mut buffer = Buffer::new();
    line.try_extend_from_slice(buffer.format(number).as_bytes())
        .unwrap();
    line.push(b',');
}

/// Adds what became of a request, and the numbers that it found.
fn push_found(line: &mut Line, offered: Offered)
    requires { array_vec_len line.old ≤ 105 }
    ensures text { line.new.items
        ≡ line.old.items ++ (decision_field offered.decision ++ found_fields offered) }
    ensures len { array_vec_len line.new ≤ array_vec_len line.old + 72 }
{
    let word = match offered.decision {
        Decision::Admitted { .. } => b"admitted,",
        Decision::Rejected => b"rejected,",
    };
    line.try_extend_from_slice(word).unwrap();
    push_number(line, offered.service);
    push_number(line, offered.found.credit);
    push_number(line, offered.found.rate);
}

/// Adds when the service of a request begins and ends.
fn push_service(line: &mut Line, offered: Offered)
    requires { array_vec_len line.old ≤ 177 }
    ensures text { line.new.items
        ≡ line.old.items ++ service_fields offered.service offered.decision }
    ensures len { array_vec_len line.new ≤ array_vec_len line.old + 42 }
{
    match offered.decision {
        Decision::Admitted { finish } => {
            push_number(line, finish.saturating_sub(offered.service));
            push_number(line, finish);
        }
        Decision::Rejected => line.try_extend_from_slice(b",,").unwrap(),
    }
}

/// Adds what became of a message that came at this tick.
fn push_offered(line: &mut Line, tick: u64, offered: Option<Offered>)
    requires { array_vec_len line.old ≤ 105 }
    ensures text { line.new.items ≡ line.old.items ++ offered_fields tick offered }
    ensures len { array_vec_len line.new ≤ array_vec_len line.old + 135 }
{
    let Some(offered) = offered else {
        line.try_extend_from_slice(b"bypassed,,,,,,,").unwrap();
        return;
    };
    push_found(line, offered);
    push_service(line, offered);
    push_number(line, offered.found.free.saturating_sub(tick));
}

/// Adds the pool that a request is of, where there is such a column.
fn push_pool(line: &mut Line, pools: bool, offered: Option<Offered>)
    requires { array_vec_len line.old ≤ 243 }
    ensures { line.new.items ≡ line.old.items ++ pool_field pools offered }
{
    if pools {
        match offered {
            Some(offered) => push_number(line, u64::from(offered.pool)),
            None => line.push(b','),
        }
    }
}

/// The fields of a row, up to the comma before its method.
pub(crate) fn row_line(row: &Row) -> Line
    ensures { result.items ≡ row_line row.now }
{
    let mut line = Line::new();
    push_number(&mut line, row.number as u64);
    push_number(&mut line, row.conn as u64);
    push_number(&mut line, row.tick);
    push_number(&mut line, u64::from(row.tier));
    push_number(&mut line, u64::from(row.status));
    push_offered(&mut line, row.tick, row.offered);
    push_pool(&mut line, row.pools, row.offered);
    line
}
