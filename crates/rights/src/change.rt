// Whether a change of a right relaxes or restricts.
ghost use Rattle.std.specs.Prelude.{◌≡◌};
ghost use Rattle.rights.specs.Orders.{join_of, change_of};

use crate::order::RightsOrder;

#[derive(Clone, Copy, PartialEq, Eq, Debug)]
pub enum ChangeKind {
    Relaxation,
    Restriction,
}

// Relaxes exactly if the join of old and new is new: then new permits whatever old does.
pub fn change_of<O: RightsOrder>(order: &O, old: u32, new: u32) -> ChangeKind
    ensures { result ≡ change_of (join_of (O.right order.now) (O.joined order.now)) old new }
{
    if order.join(old, new) == new {
        ChangeKind::Relaxation
    } else {
        ChangeKind::Restriction
    }
}
