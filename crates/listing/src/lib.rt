// The listing of a tape, in words.
#![tactic(auto)]

ghost use Rattle.std.specs.Prelude.{◌≡◌, ◌≤◌, ◌++◌, length, OnOk, IfOk, string_bytes};
ghost use Rattle.records.specs.Faults.{fault_line};
ghost use Rattle.records.specs.Tapes.{tape_bytes};
ghost use Rattle.listing.specs.Listings.{request_line, request_lines, ending, read_size, last_line, listing_of};

use protocol::Request;
use records::{FaultValues, read_tape, record_len};
use std::alloc::{AllocError, Global};

// Appends the line of a record: its number, its first byte, and its request in words.
fn push_request_line(
    lines: &mut String,
    number: usize,
    start: usize,
    request: Request,
) -> Result<(), AllocError>
    ensures { OnOk result (string_bytes lines.new ≡ string_bytes lines.old ++ request_line number start request) }
{
    writeln!(lines, "{number} {start} {}", request.words().as_str())
}

// The lines of a tape's records.
fn request_lines(heap: Global, requests: &[Request]) -> Result<String, AllocError>
    requires { length (tape_bytes requests.now) ≤ 60000 }
    ensures { IfOk result (λ lines. string_bytes lines ≡ request_lines 1 0 requests.now) }
{
    let mut lines = String::new(heap);
    let mut start = 0;
    for (i, request) in requests.iter().enumerate() {
        push_request_line(&mut lines, i + 1, start, *request)?;
        start += record_len(*request);
    }
    Ok(lines)
}

// The line of a tape's fault; none where it has no fault.
fn fault_line(heap: Global, fault: Option<FaultValues>) -> Result<String, AllocError>
    ensures { IfOk result (λ line. string_bytes line ≡ fault_line fault) }
{
    match fault {
        None => Ok(String::new(heap)),
        Some(values) => format!(in heap; "{}\n", values.words().as_str()),
    }
}

fn ending(fault: Option<FaultValues>) -> &'static str
    ensures { result.now ≡ ending fault }
{
    match fault {
        None => "read to the end",
        Some(_) => "stopped at a fault",
    }
}

// How many of so many bytes were read as records.
fn read_size(fault: Option<FaultValues>, size: usize) -> usize
    ensures { result ≡ read_size fault size }
{
    fault.map_or(size, |values| values.start as usize)
}

// The last line: how many records there were, how many of the bytes they took, and whether that was all.
fn last_line(
    heap: Global,
    count: usize,
    fault: Option<FaultValues>,
    size: usize,
) -> Result<String, AllocError>
    ensures { IfOk result (λ line. string_bytes line ≡ last_line count fault size) }
{
    let read = read_size(fault, size);
    let ending = ending(fault);
    format!(in heap; "{count} records, {read} of {size} bytes, {ending}\n")
}

/// A line for each record of a tape, the line of its fault, and a line that says what was read.
/// Every tape is listed: no answer but want of memory stands in its place.
pub fn list_tape(heap: Global, bytes: &[u8]) -> Result<String, AllocError>
    ensures { IfOk result (λ text. string_bytes text ≡ listing_of bytes.now) }
{
    let tape = read_tape(heap, bytes)?;
    let fault = tape.fault_values();
    let mut text = request_lines(heap, tape.requests.as_slice())?;
    text.push_str(fault_line(heap, fault)?.as_str())?;
    text.push_str(last_line(heap, tape.requests.len(), fault, bytes.len())?.as_str())?;
    Ok(text)
}
