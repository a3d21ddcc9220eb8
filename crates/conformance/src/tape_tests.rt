// Tapes: their requests, their faults with places, and their greatest length.
use crate::check::check_eq;
use listing::list_tape;
use protocol::Request;
use records::{FaultValues, Placed, RecordFault, TapeFault, TapeReader, read_tape, tape_fault};
use std::alloc::Global;
use std::process::Abort;

// How many requests a tape has, and its fault.
fn reading(rt: &impl Abort, heap: Global, bytes: &[u8]) -> (usize, Option<FaultValues>) {
    let tape = read_tape(heap, bytes).expect(rt, "memory");
    (tape.requests.len(), tape.fault_values())
}

// A fault by its number, with the record's number and its first byte.
fn fault(fault: u8, number: u32, start: u32) -> Option<FaultValues> {
    Some(FaultValues {
        fault,
        number,
        start,
    })
}

#[test]
fn requests_in_order(rt: HostRuntime) {
    let tape = read_tape(rt.alloc(), &[1, 0, 2, 0, 1, 7, 0, 2, 0, 2]).expect(&rt, "memory");
    check_eq(
        &rt,
        tape.requests.as_slice(),
        [
            Request::Open { subject: 1 },
            Request::Commit { transaction: 2 },
        ]
        .as_slice(),
    );
}

// A tape, how many requests it has, and its fault.
type Row = (&'static [u8], usize, Option<FaultValues>);

// A sound tape, and then one of each fault. What stands behind the first fault counts for nothing.
#[test]
fn faults_have_places(rt: HostRuntime) {
    let rows: [Row; 7] = [
        (&[], 0, None),
        (&[1, 0, 2, 0, 1, 7, 0, 2, 0, 1], 2, None),
        // One byte of a record of three or more, and one of a content of two.
        (&[1, 0, 2, 0, 1, 7], 1, fault(9, 2, 5)),
        (&[1, 0, 2, 0], 0, fault(9, 1, 0)),
        // A record of 5 bytes, one of 7, and then a tag that is unknown.
        (
            &[1, 0, 2, 0, 1, 2, 0, 4, 0, 1, 0, 0, 9, 0, 0],
            2,
            fault(10, 3, 12),
        ),
        // One byte more, and then one less, than a commit's content has.
        (
            &[1, 0, 2, 0, 1, 7, 0, 3, 0, 1, 9, 9, 9, 9],
            1,
            fault(11, 2, 5),
        ),
        (&[1, 0, 2, 0, 1, 7, 0, 1, 0, 9, 9, 9], 1, fault(11, 2, 5)),
    ];
    for (bytes, count, fault) in rows {
        check_eq(&rt, reading(&rt, rt.alloc(), bytes), (count, fault));
        check_eq(&rt, tape_fault(bytes).map(FaultValues::from), fault);
    }
}

// An open, a deploy, and then a tag that is unknown, asked for twice.
#[test]
fn a_fault_is_told_again(rt: HostRuntime) {
    let bytes = [1, 0, 2, 0, 1, 2, 0, 4, 0, 1, 0, 0, 9, 0, 0];
    let mut reader = TapeReader::new(&bytes).expect(&rt, "a short tape");
    let open = Request::Open { subject: 1 };
    check_eq(&rt, reader.next_request(), Ok(Some(open)));
    let deploy = Request::Deploy {
        transaction: 1,
        policy: 0,
    };
    check_eq(&rt, reader.next_request(), Ok(Some(deploy)));
    let fault = TapeFault::Record(Placed {
        fault: RecordFault::UnknownTag,
        number: 3,
        start: 12,
    });
    check_eq(&rt, reader.next_request(), Err(fault));
    check_eq(&rt, reader.next_request(), Err(fault));
}

#[test]
fn an_end_is_told_again(rt: HostRuntime) {
    let mut reader = TapeReader::new(&[8, 0, 2, 1, 0]).expect(&rt, "a short tape");
    let give_up = Request::GiveUp { transaction: 256 };
    check_eq(&rt, reader.next_request(), Ok(Some(give_up)));
    check_eq(&rt, reader.next_request(), Ok(None));
    check_eq(&rt, reader.next_request(), Ok(None));
}

// 12,000 records of 5 bytes are 60,000 bytes.
#[test]
fn at_most_60000_bytes(rt: HostRuntime) {
    let mut bytes = [1, 0, 2, 0, 1]
        .repeat(rt.alloc(), 12000)
        .expect(&rt, "memory");
    let sound = reading(&rt, rt.alloc(), bytes.as_slice());
    check_eq(&rt, sound, (12000, None));
    check_eq(&rt, tape_fault(bytes.as_slice()), None);
    bytes.push(1).expect(&rt, "memory");
    let long = reading(&rt, rt.alloc(), bytes.as_slice());
    check_eq(&rt, long, (0, fault(13, 0, 0)));
    check_eq(&rt, tape_fault(bytes.as_slice()), Some(TapeFault::TooLong));
    let refused = TapeReader::new(bytes.as_slice()).err();
    check_eq(&rt, refused, Some(TapeFault::TooLong));
}

#[test]
fn a_listing_says_what_was_read(rt: HostRuntime) {
    let text = list_tape(rt.alloc(), &[1, 0, 2, 0, 1, 9, 0, 0]).expect(&rt, "memory");
    check_eq(
        &rt,
        text.as_str(),
        "1 0 open subject 1\nF 10 2 5\n1 records, 5 of 8 bytes, stopped at a fault\n",
    );
    let empty = list_tape(rt.alloc(), &[]).expect(&rt, "memory");
    check_eq(
        &rt,
        empty.as_str(),
        "0 records, 0 of 0 bytes, read to the end\n",
    );
}
