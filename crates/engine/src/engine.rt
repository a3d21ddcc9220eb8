// The engine holds the two stores that it was lent, an order of rights, the policies and its tables.
ghost use Rattle.std.specs.Prelude.{◌≤◌, length};
ghost use Rattle.engine.specs.Owning.{OwnCells};
ghost use Rattle.engine.specs.Tables.{slots_in};

use crate::tables::Tables;
use protocol::Policy;

mod calls;
mod judging;
mod run;
mod views;

#[derive(Drop)]
pub struct Engine<'a, 'o, 'p, C, R, O> {
    cells: &'a mut C,
    rights: &'a mut R,
    order: &'o O,
    // The right of policy i is number i of the rights store: a rule of set-up, so the two lists stand apart.
    policies: &'p [Policy],
    // So many cells of the store are the engine's: all, or none where set-up refused, by the rule of an engine made all the same.
    // A number of its own beside the store, of whose list no type can state that it is at most 256.
    size: usize,
    tables: Tables,
    ghost few_cells: { size ≤ 256 },
    ghost few_policies: { length policies.now ≤ 64 },
    // No open transaction has a change to a cell that is not the engine's.
    ghost own_cells: { OwnCells size (slots_in tables) },
}
