//! Out of memory: `checks/refuse_growths.py` refuses each growth in turn.
use captures::{CaptureFault, CaptureFaultKind as Kind, CaptureReader, Record};
use devices::Input;

/// Whether this is the piece `hi` at tick 0 on connection 1.
fn is_piece(record: &Record) -> bool {
    match record {
        Record::Piece { tick, conn, bytes } => {
            *tick == 0 && *conn == 1 && bytes.as_slice() == b"hi".as_slice()
        }
        _ => false,
    }
}

/// What a call answers.
type Answer = Result<Option<Record>, CaptureFault>;

/// Whether these are the answers to three calls, or the first is that there is no memory, and the others too.
fn are_right(piece: &Answer, end: &Answer, none: &Answer) -> bool {
    match piece {
        Ok(Some(record)) => {
            is_piece(record)
                && record.size() == 2
                && matches!(end, Ok(Some(Record::End { tick: 0, conn: 1 })))
                && matches!(none, Ok(None))
        }
        Ok(None) => false,
        Err(fault) => {
            fault.kind == Kind::Memory && fault.at == 1 && end.is_err() && none.is_err()
        }
    }
}

/// Only a piece takes memory. A growth that is refused is answered so, with the record, and then again; else the
/// answers are right.
#[test]
fn each_growth_refused(rt: HostRuntime) {
    let text = b"haboob-capture 1 0\npiece 0 1 2\nhi\nend 0 1\nstop 2\n";
    let mut input = Input::new(text.as_slice());
    match CaptureReader::open(&mut input) {
        Ok(mut reader) => {
            let piece = reader.next_record(rt.alloc());
            let end = reader.next_record(rt.alloc());
            let none = reader.next_record(rt.alloc());
            assert!(rt; are_right(&piece, &end, &none));
        }
        Err(_) => assert!(rt; false, "no first line"),
    }
}
