// A tape is run record by record: its request is made, and the answer's line is written.
ghost use Rattle.std.specs.Prelude.{◌≡◌, ◌+◌, ◌*◌, ◌/◌, ◌≤◌, length, OnErr};
ghost use Rattle.protocol.specs.Refusals.{outcome};
ghost use Rattle.engine.specs.Stores.{lists_of, Lent, Wrote};
ghost use Rattle.engine.specs.Beginning.{setup_with};
ghost use Rattle.records.specs.Readers.{pending, left_of};
ghost use Rattle.tape.specs.Runs.{longest_lines, room_check, RunsTape};
ghost use Rattle.tape.specs.Records.{RanRecords};

use crate::pushing::{push_answer, push_fault};
use engine::Engine;
use protocol::{Policy, Refusal};
use records::{FaultValues, TapeReader};
use rights::RightsOrder;
use setup::check_setup;
use stores::Store;

// How many bytes the lines of a tape have at most. A record has at least five bytes, and the line of its answer at most 14; the line of a fault has at most 28.
fn longest_lines(tape: &[u8]) -> usize
    ensures { result ≡ longest_lines tape.now }
{
    if tape.len() > 60_000 {
        28
    } else {
        14 * (tape.len() / 5) + 28
    }
}

fn check_room(tape: &[u8], buffer: &[u8]) -> Result<(), Refusal>
    ensures { outcome result ≡ room_check tape.now buffer.now }
{
    if longest_lines(tape) > buffer.len() {
        return Err(Refusal::ExceedsBuffer);
    }
    Ok(())
}

// Makes the requests of the records in turn. The lines of the answers, and of the fault at which the tape is left, stand at the buffer's front: how long they are.
fn run_records<C: Store, R: Store, O: RightsOrder>(
    engine: &mut Engine<'_, '_, '_, C, R, O>,
    mut reader: TapeReader<'_>,
    buffer: &mut [u8],
) -> usize
    requires { 14 * (left_of reader / 5) + 28 ≤ length buffer.old }
    ensures ran { RanRecords C.Store R.Store O.RightsOrder engine.old engine.new (pending reader.entry) buffer.old buffer.new result }
    ensures short { result ≤ 14 * (left_of reader.entry / 5) + 28 }
{
    let mut end = 0;
    loop {
        let next = match reader.next_request() {
            Ok(next) => next,
            Err(fault) => return push_fault(FaultValues::from(fault), buffer, end),
        };
        let Some(request) = next else {
            return end;
        };
        let answer = engine.call(request);
        end = push_answer(answer, buffer, end);
    }
}

/// Runs a tape as a day on the two stores: the requests of its records up to its end, or up to its first fault, are made in turn. The lines of the
/// answers, and of the fault, stand at the front of the buffer then; answers how many bytes they have. Later bytes stay.
///
/// Refuses what set-up refuses (14, 15, 16), and then, with 12, a buffer that has no room for the longest lines that the tape could have: 14 bytes for each
/// whole five of its bytes, and 28; or 28 where it has more than 60,000 bytes. Refused, it has changed nothing. It takes no memory.
pub fn run_tape<C: Store, R: Store, O: RightsOrder>(
    tape: &[u8],
    cells: &mut C,
    rights: &mut R,
    order: &O,
    policies: &[Policy],
    buffer: &mut [u8],
) -> Result<usize, Refusal>
    ensures runs { RunsTape (setup_with O.RightsOrder order.now policies.now)
        (lists_of C.Store R.Store cells.old rights.old) (lists_of C.Store R.Store cells.new rights.new)
        (Wrote C.Store R.Store cells.old rights.old cells.new rights.new) tape.now buffer.old buffer.new result }
    ensures lent { Lent C.Store R.Store cells.old rights.old cells.new rights.new }
    ensures untouched { OnErr result ((cells.new ≡ cells.old) × (rights.new ≡ rights.old)) }
    ensures room_for_every_tape { longest_lines tape.now ≤ 170000 }
{
    check_setup(cells, rights, order, policies)?;
    check_room(tape, buffer)?;
    let mut engine = Engine::new(cells, rights, order, policies);
    match TapeReader::new(tape) {
        Ok(reader) => Ok(run_records(&mut engine, reader, buffer)),
        Err(fault) => Ok(push_fault(FaultValues::from(fault), buffer, 0)),
    }
}
