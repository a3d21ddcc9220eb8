// Records byte by byte: what writing makes, and what reading takes and refuses.
use crate::check::check_eq;
use protocol::Refusal::ExceedsBuffer;
use protocol::Request;
use records::RecordFault::{Field, UnknownTag, WrongLength};
use records::{FieldFault, RecordFault, read_record, record_len, write_record};
use std::process::Abort;

// Writes the request into twelve bytes of 0xEE, and reads it back from there.
fn travels(rt: &impl Abort, request: Request, len: usize, bytes: [u8; 12]) {
    let mut buffer = [0xEE; 12];
    check_eq(rt, record_len(request), len);
    check_eq(rt, write_record(request, &mut buffer), Ok(len));
    check_eq(rt, buffer, bytes);
    let (read, rest) = read_record(&buffer).expect(rt, "a record");
    check_eq(rt, read, request);
    check_eq(rt, rest.len(), 12usize.saturating_sub(len));
}

#[test]
fn records_with_one_number(rt: HostRuntime) {
    let open = [1, 0, 2, 0, 1, 0xEE, 0xEE, 0xEE, 0xEE, 0xEE, 0xEE, 0xEE];
    travels(&rt, Request::Open { subject: 1 }, 5, open);
    let commit = [7, 0, 2, 1, 2, 0xEE, 0xEE, 0xEE, 0xEE, 0xEE, 0xEE, 0xEE];
    travels(&rt, Request::Commit { transaction: 258 }, 5, commit);
    let give_up = [
        8, 0, 2, 0xFF, 0xFF, 0xEE, 0xEE, 0xEE, 0xEE, 0xEE, 0xEE, 0xEE,
    ];
    travels(&rt, Request::GiveUp { transaction: 65535 }, 5, give_up);
}

#[test]
fn records_with_two_numbers(rt: HostRuntime) {
    let deploy = [2, 0, 4, 0, 1, 0, 63, 0xEE, 0xEE, 0xEE, 0xEE, 0xEE];
    travels(
        &rt,
        Request::Deploy {
            transaction: 1,
            policy: 63,
        },
        7,
        deploy,
    );
    let read = [3, 0, 4, 0, 2, 1, 0, 0xEE, 0xEE, 0xEE, 0xEE, 0xEE];
    travels(
        &rt,
        Request::Read {
            transaction: 2,
            cell: 256,
        },
        7,
        read,
    );
    let show = [5, 0, 4, 195, 80, 0, 0, 0xEE, 0xEE, 0xEE, 0xEE, 0xEE];
    travels(
        &rt,
        Request::Show {
            transaction: 50000,
            policy: 0,
        },
        7,
        show,
    );
}

#[test]
fn records_with_a_long_number(rt: HostRuntime) {
    let write = [4, 0, 8, 0, 3, 0, 9, 0x12, 0x34, 0x56, 0x78, 0xEE];
    travels(
        &rt,
        Request::Write {
            transaction: 3,
            cell: 9,
            value: 0x12345678,
        },
        11,
        write,
    );
    let set = [6, 0, 8, 0, 2, 0, 0, 0xFF, 0xFF, 0xFF, 0xFF, 0xEE];
    travels(
        &rt,
        Request::Set {
            transaction: 2,
            policy: 0,
            right: 4294967295,
        },
        11,
        set,
    );
}

#[test]
fn a_record_that_exceeds_the_buffer_is_not_written(rt: HostRuntime) {
    let open = Request::Open { subject: 1 };
    let mut short = [9, 9, 9, 9];
    check_eq(&rt, write_record(open, &mut short), Err(ExceedsBuffer));
    check_eq(&rt, short, [9, 9, 9, 9]);
    let mut enough = [9, 9, 9, 9, 9];
    check_eq(&rt, write_record(open, &mut enough), Ok(5));
    check_eq(&rt, enough, [1, 0, 2, 0, 1]);
}

const CUT: RecordFault = Field(FieldFault::Cut);

fn fault(bytes: &[u8]) -> Option<RecordFault> {
    read_record(bytes).err()
}

#[test]
fn cut_comes_first_then_the_tag_then_the_length(rt: HostRuntime) {
    static FAULTS: &[(&[u8], Option<RecordFault>)] = &[
        (&[], Some(CUT)),
        (&[1, 0], Some(CUT)),
        // Content of one byte where the length says two; the tag is unknown besides.
        (&[9, 0, 2, 0], Some(CUT)),
        // Unknown tags; the length is nobody's besides.
        (&[0, 0, 0], Some(UnknownTag)),
        (&[9, 0, 1, 0], Some(UnknownTag)),
        (&[1, 0, 1, 0], Some(WrongLength)),
        (&[2, 0, 2, 0, 1], Some(WrongLength)),
        (&[8, 0, 4, 0, 1, 0, 1], Some(WrongLength)),
        (&[8, 0, 2, 0, 1], None),
    ];
    for (bytes, expected) in FAULTS {
        check_eq(&rt, (*bytes, fault(bytes)), (*bytes, *expected));
    }
}

// 0x0102 is 258: the length's high byte counts.
#[test]
fn a_length_has_two_bytes(rt: HostRuntime) {
    let mut bytes = [0; 261];
    bytes[0] = 1;
    bytes[1] = 1;
    bytes[2] = 2;
    check_eq(&rt, fault(&bytes), Some(WrongLength));
    check_eq(&rt, fault(&bytes[0..260]), Some(CUT));
}
