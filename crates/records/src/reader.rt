// A tape that is read record by record, with no memory but the caller's.
ghost use Rattle.std.specs.Prelude.{◌≡◌, ◌+◌, ◌≤◌, ◌++◌, length, IfOk, IfErr, MatchResult};
ghost use Rattle.protocol.specs.Refusals.{answered, refused};
ghost use Rattle.records.specs.Faults.{fault_values};
ghost use Rattle.records.specs.Records.{record_bytes, record_of};

use crate::fault::{Placed, TapeFault};
use crate::record::read_record;
use protocol::Request;

// The request at the front of what is left of a tape, and what is left behind it; a fault is told with these places. It and all that it calls are
// inlined into the loop that runs a tape, where a record's request would else go through memory.
#[inline(always)]
fn record_at(left: &[u8], number: u32, start: u32) -> Result<(Request, &[u8]), TapeFault>
    ensures reads { MatchResult result
        (λ p. record_of left.now ≡ answered (p.0, p.1.now))
        (λ e. record_of left.now ≡ refused (fault_values e).fault) }
    ensures places { IfErr result (λ e. ((fault_values e).number ≡ number) × ((fault_values e).start ≡ start)) }
    ensures one_record { IfOk result (λ p. left.now ≡ record_bytes p.0 ++ p.1.now) }
{
    let next = read_record(left).map_err(|fault| Placed {
        fault,
        number,
        start,
    })?;
    Ok(next)
}

// The most bytes that a tape has.
const LONGEST: usize = 60_000;

/// A tape that is being read, record by record.
#[derive(Drop)]
pub struct TapeReader<'a> {
    // How many bytes the tape has, and how many of its records were read.
    total: usize,
    read: u32,
    // The bytes behind those records.
    left: &'a [u8],
    ghost short: { total ≤ 60000 },
    ghost within: { read + length left.now ≤ total },
}

impl<'a> TapeReader<'a> {
    ghost use Rattle.std.specs.Prelude.{◌<◌, IfNone, IfSome, MatchOption, OnErr};
    ghost use Rattle.records.specs.Tapes.{behind, at_end, at_fault, tape_of, ReadsTape};
    ghost use Rattle.records.specs.Readers.{pending, left_of};

    /// A reader at the tape's first record. A tape of more than 60,000 bytes is refused, by fault 13.
    pub fn new(bytes: &'a [u8]) -> Result<TapeReader<'a>, TapeFault>
        ensures reads { MatchResult result
            (λ reader. pending reader ≡ tape_of bytes.now)
            (λ fault. tape_of bytes.now ≡ at_fault (fault_values fault)) }
        ensures left { IfOk result (λ reader. (left_of reader ≡ length bytes.now) × (length bytes.now ≤ 60000)) }
        ensures too_long { OnErr result (60000 < length bytes.now) }
        ensures records_are_requests { ReadsTape bytes.now (tape_of bytes.now) }
    {
        if bytes.len() > LONGEST {
            return Err(TapeFault::TooLong);
        }
        Ok(TapeReader {
            total: bytes.len(),
            read: 0,
            left: bytes,
        })
    }

    /// The request of the next record, or nothing at the tape's end. At the first record that cannot be read its fault, with the record's
    /// number and first byte, now and whenever it is asked again.
    #[inline(always)]
    pub fn next_request(&mut self) -> Result<Option<Request>, TapeFault>
        ensures reads { MatchResult result
            (λ next. MatchOption next
            (pending self.old ≡ at_end)
            (λ request. pending self.old ≡ behind request (pending self.new)))
            (λ fault. pending self.old ≡ at_fault (fault_values fault)) }
        ensures shrinks { IfOk result (λ next. IfSome next (λ _. left_of self.new + 5 ≤ left_of self.old)) }
        ensures stays { MatchResult result (λ next. IfNone next (self.new ≡ self.old)) (λ _. self.new ≡ self.old) }
    {
        if self.left.is_empty() {
            return Ok(None);
        }
        let number = self.read + 1;
        let start = (self.total - self.left.len()) as u32;
        let (request, rest) = record_at(self.left, number, start)?;
        self.left = rest;
        self.read = number;
        Ok(Some(request))
    }
}
