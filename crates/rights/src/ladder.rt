// Rights as rungs: a right permits an operation exactly if it reaches the threshold of the operation.
ghost use Rattle.std.specs.Prelude.{◌≡◌, true, IfOk};
ghost use Rattle.protocol.specs.Refusals.{outcome};
ghost use Rattle.rights.specs.Orders.{ladder_right, ladder_joined, ladder_allows, ladder_check, threshold, is_threshold, are_thresholds, verdict};
ghost use Rattle.rights.specs.LadderLaws.{ladder_join_is_right, ladder_join_permits};

use crate::order::{Operation, RightsOrder};
use protocol::Refusal;

// The thresholds are private and in range, so that nobody has an order with others.
#[derive(Clone, Copy, PartialEq, Eq, Debug)]
pub struct LadderOrder {
    read: u32,
    write: u32,
    restrict: u32,
    ghost in_range: { are_thresholds read write restrict ≡ true },
}

fn is_threshold(t: u32) -> bool
    ensures { result ≡ is_threshold t }
{
    (1..=100).contains(&t)
}

impl LadderOrder {
    // Refuses thresholds outside 1 to 100: three numbers, since there is no order yet to hold them.
    pub fn check(read: u32, write: u32, restrict: u32) -> Result<(), Refusal>
        ensures { outcome result ≡ ladder_check read write restrict }
    {
        if is_threshold(read) && is_threshold(write) && is_threshold(restrict) {
            Ok(())
        } else {
            Err(Refusal::BadThreshold)
        }
    }

    // The order with these thresholds, unless `check` refuses them.
    pub fn new(read: u32, write: u32, restrict: u32) -> Result<LadderOrder, Refusal>
        ensures answer { verdict (outcome result) ≡ ladder_check read write restrict }
        ensures holds { IfOk result (λ order. (order.read ≡ read) × (order.write ≡ write) × (order.restrict ≡ restrict)) }
    {
        LadderOrder::check(read, write, restrict)?;
        Ok(LadderOrder {
            read,
            write,
            restrict,
        })
    }

    fn threshold(&self, operation: Operation) -> u32
        ensures { result ≡ threshold self.now.read self.now.write self.now.restrict operation }
    {
        match operation {
            Operation::Read => self.read,
            Operation::Write => self.write,
            Operation::Restrict => self.restrict,
        }
    }
}

impl RightsOrder for LadderOrder {
    ghost right = { λ _. ladder_right };

    ghost joined = { λ _. ladder_joined };

    ghost allows = { λ o. ladder_allows o.read o.write o.restrict };

    ghost join_is_right = { λ _. ladder_join_is_right };

    ghost join_permits = { λ o. ladder_join_permits o.read o.write o.restrict };

    fn is_right(&self, code: u32) -> bool {
        code <= 100
    }

    // Join and permits test the codes in either order by themselves: the trait could do so only over two calls that promise nothing
    // of codes that are no rights.
    fn join(&self, a: u32, b: u32) -> u32 {
        if self.is_right(a) && self.is_right(b) {
            a.max(b)
        } else {
            0
        }
    }

    fn permits(&self, code: u32, operation: Operation) -> bool {
        self.is_right(code) && self.threshold(operation) <= code
    }
}
