// A tape: the records of requests, one after another.
ghost use Rattle.std.specs.Prelude.{◌≡◌, ◌≤◌, length, IfOk, OnErr};
ghost use Rattle.std.specs.Option.{option_map};
ghost use Rattle.records.specs.Faults.{fault_values};
ghost use Rattle.records.specs.Tapes.{tape_of, ReadsTape};

use crate::fault::{FaultValues, TapeFault};
use crate::reader::TapeReader;
use protocol::Request;
use std::alloc::{AllocError, Global};

/// The requests of a tape, in order, up to its end or up to its first fault.
#[derive(Drop)]
pub struct Tape {
    pub requests: Vec<Request>,
    pub fault: Option<TapeFault>,
}

impl Tape {
    /// The fault in numbers, as a line prints it.
    pub fn fault_values(&self) -> Option<FaultValues>
        ensures { result ≡ option_map fault_values self.now.fault }
    {
        self.fault.map(FaultValues::from)
    }
}

/// The first fault of a tape, if it has one. It takes no memory.
pub fn tape_fault(bytes: &[u8]) -> Option<TapeFault>
    ensures { option_map fault_values result ≡ (tape_of bytes.now).fault }
{
    let mut reader = match TapeReader::new(bytes) {
        Ok(reader) => reader,
        Err(fault) => return Some(fault),
    };
    loop {
        match reader.next_request() {
            Ok(Some(_)) => (),
            Ok(None) => return None,
            Err(fault) => return Some(fault),
        }
    }
}

// A record has at least five bytes: its tag, the length of its content, and one number.
const SHORTEST: usize = 5;

/// Reads a whole tape. One of more than 60,000 bytes has no requests and fault 13, and takes no memory.
pub fn read_tape(heap: Global, bytes: &[u8]) -> Result<Tape, AllocError>
    ensures reads { IfOk result (λ t.
        ReadsTape bytes.now (record { requests = t.requests.items; fault = option_map fault_values t.fault })) }
    ensures wants { OnErr result (length bytes.now ≤ 60000) }
{
    let mut reader = match TapeReader::new(bytes) {
        Ok(reader) => reader,
        Err(fault) => return Ok(Tape {
            requests: Vec::new(heap),
            fault: Some(fault),
        }),
    };
    // Room for as many records as there can be, so that it need not grow.
    let mut requests = Vec::with_capacity(heap, bytes.len() / SHORTEST)?;
    loop {
        match reader.next_request() {
            Ok(Some(request)) => requests.push(request)?,
            Ok(None) => return Ok(Tape {
                requests,
                fault: None,
            }),
            Err(fault) => return Ok(Tape {
                requests,
                fault: Some(fault),
            }),
        }
    }
}
