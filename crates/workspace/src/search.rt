// The change of an object among others.
ghost use Rattle.std.specs.Prelude.{◌≡◌, find, position};
ghost use Rattle.workspace.specs.Workspaces.{is_of};

use protocol::{Change, Object};

// The derived equality of objects is the model's.
fn is_of(change: &Change, object: Object) -> bool
    ensures { result ≡ is_of object change.now }
{
    change.object == object
}

pub fn change_of(changes: &[Change], object: Object) -> Option<Change>
    ensures { result ≡ find (is_of object) changes.now }
{
    changes.iter().copied().find(|change| is_of(change, object))
}

pub fn place_of(changes: &[Change], object: Object) -> Option<usize>
    ensures { result ≡ position (is_of object) changes.now }
{
    changes.iter().position(|change| is_of(change, object))
}
