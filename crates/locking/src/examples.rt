// The worked examples, promised of the definitions. The calls are run at them too, for a test: what each answers is promised by its own
// contract, over the same definitions.
ghost use Rattle.std.specs.Prelude.{◌≡◌, true};
ghost use Rattle.locking.specs.Examples.{ExamplesStand};

use crate::mode::{LockAnswer, PolicyMode};
use crate::policy::PolicyRow;
use crate::row::LockRow;
use rights::{ChangeKind, LadderOrder, Operation, RightsOrder, VectorOrder, change_of};

fn vector_agrees() -> bool
    ensures { result ≡ true }
{
    let order = VectorOrder;
    order.join(1, 5) == 5
        && change_of(&order, 1, 5) == ChangeKind::Relaxation
        && order.join(1, 6) == 7
        && change_of(&order, 1, 6) == ChangeKind::Restriction
        && change_of(&order, 6, 6) == ChangeKind::Relaxation
        && change_of(&order, 0, 4) == ChangeKind::Relaxation
        && change_of(&order, 4, 0) == ChangeKind::Restriction
}

fn ladder_agrees() -> bool
    ensures { result ≡ true }
{
    let Ok(order) = LadderOrder::new(10, 20, 30) else {
        return false;
    };
    order.permits(20, Operation::Read)
        && order.permits(20, Operation::Write)
        && !order.permits(20, Operation::Restrict)
}

fn locks_agree() -> bool
    ensures { result ≡ true }
{
    PolicyRow::answer(PolicyMode::Deploy, PolicyMode::Relax) == LockAnswer::Compatible
        && PolicyRow::answer(PolicyMode::Deploy, PolicyMode::Restrict) == LockAnswer::Signal
        && PolicyRow::answer(PolicyMode::Relax, PolicyMode::Deploy) == LockAnswer::Conflict
}

// The promise is what the definitions come to at every example, and that the answer is yes: it says nothing of the calls that are run.
pub fn examples_stand() -> bool
    ensures { ExamplesStand result }
{
    vector_agrees() && ladder_agrees() && locks_agree()
}
