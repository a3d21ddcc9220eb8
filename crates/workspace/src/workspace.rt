// One change for each cell or policy, in the order in which they were first changed.
ghost use Rattle.std.specs.Prelude.{◌≤◌};

use protocol::Change;

mod calls;

// An array and a count, and no vector of the kit: those are not Copy, and the table's array is made of copies of a free slot.
#[derive(Clone, Copy)]
pub struct Workspace {
    changes: [Change; 16],
    count: usize,
    ghost few: { count ≤ 16 },
}
