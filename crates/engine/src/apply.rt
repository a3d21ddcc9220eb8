// The changes of a workspace go into the stores.
ghost use Rattle.std.specs.Prelude.{◌≡◌, [], ◌∷◌};
ghost use Rattle.workspace.specs.Workspaces.{changes_of};
ghost use Rattle.serial.specs.Changes.{store_at, apply};
ghost use Rattle.engine.specs.Stores.{lists_of, Lent, Wrote};

use protocol::{Change, Object};
use stores::Store;
use workspace::Workspace;

fn store_change<C: Store, R: Store>(cells: &mut C, rights: &mut R, change: Change)
    ensures lists { lists_of C.Store R.Store cells.new rights.new ≡ store_at (lists_of C.Store R.Store cells.old rights.old) change.object change.value }
    ensures lent { Lent C.Store R.Store cells.old rights.old cells.new rights.new }
    ensures writes { Wrote C.Store R.Store cells.old rights.old cells.new rights.new (change ∷ []) }
{
    match change.object {
        Object::OfCell(cell) => {
            let _ = cells.write(cell as usize, change.value);
        }
        Object::OfPolicy(policy) => {
            let _ = rights.write(policy as usize, change.value);
        }
    }
}

pub fn store_all<C: Store, R: Store>(cells: &mut C, rights: &mut R, work: &Workspace)
    ensures lists { lists_of C.Store R.Store cells.new rights.new ≡ apply (changes_of work.now) (lists_of C.Store R.Store cells.old rights.old) }
    ensures lent { Lent C.Store R.Store cells.old rights.old cells.new rights.new }
    ensures writes { Wrote C.Store R.Store cells.old rights.old cells.new rights.new (changes_of work.now) }
{
    for change in work.as_slice() {
        store_change(cells, rights, *change);
    }
}
