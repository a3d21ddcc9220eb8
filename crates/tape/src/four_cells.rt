// The set-up on which daytape runs a tape: four cells at 0, the vector order, and two policies.
ghost use Rattle.std.specs.Prelude.{◌≡◌, ◌≤◌, length, IsOk};
ghost use Rattle.protocol.specs.Refusals.{answered};
ghost use Rattle.serial.specs.Words.{Store};
ghost use Rattle.serial.specs.Changes.{apply};
ghost use Rattle.setup.specs.Admission.{setup_check};
ghost use Rattle.tape.specs.Runs.{RunsTape};
ghost use Rattle.tape.specs.FourCells.{four_cells_setup, four_cells_lists};

use crate::run::run_tape;
use protocol::{Object, Policy, Refusal};
use rights::VectorOrder;
use stores::SliceStore;

/// So many bytes have room for the lines of every tape.
pub const ROOM: usize = 170_000;

/// Writes the lines that daytape prints for a tape to the front of the buffer, and answers how many bytes they have. Refuses with 12 as `run_tape`
/// does, which is never where the buffer has `ROOM` bytes.
pub fn lines_of_tape(tape: &[u8], buffer: &mut [u8]) -> Result<usize, Refusal>
    ensures runs { (evening : Store) × RunsTape four_cells_setup four_cells_lists evening
        (λ changes. evening ≡ apply changes four_cells_lists) tape.now buffer.old buffer.new result }
    ensures set_up_accepts { setup_check four_cells_setup.is_right four_cells_lists.cells four_cells_lists.rights four_cells_setup.policies ≡ answered tt }
    ensures always_runs { 170000 ≤ length buffer.old → IsOk result }
{
    let mut cells = [0; 4];
    let mut rights = [6, 7];
    let policies = [
        Policy {
            subject: 1,
            object: Object::OfCell(0),
        },
        Policy {
            subject: 9,
            object: Object::OfPolicy(0),
        },
    ];
    let mut cell_store = SliceStore::new(&mut cells);
    let mut right_store = SliceStore::new(&mut rights);
    run_tape(
        tape,
        &mut cell_store,
        &mut right_store,
        &VectorOrder,
        &policies,
        buffer,
    )
}
