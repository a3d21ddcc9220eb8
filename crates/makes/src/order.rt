// Either of the two orders of rights.
ghost use Rattle.makes.specs.Orders.{right_of, joined_of, allows_of};
ghost use Rattle.makes.specs.OrderLaws.{join_is_right, join_permits};

use rights::{LadderOrder, Operation, RightsOrder, VectorOrder};

#[derive(Clone, Copy, PartialEq, Eq, Debug)]
pub enum AnyOrder {
    Vector(VectorOrder),
    Ladder(LadderOrder),
}

impl RightsOrder for AnyOrder {
    ghost right = { right_of };

    ghost joined = { joined_of };

    ghost allows = { allows_of };

    ghost join_is_right = { join_is_right };

    ghost join_permits = { join_permits };

    fn is_right(&self, code: u32) -> bool {
        match self {
            AnyOrder::Vector(order) => order.is_right(code),
            AnyOrder::Ladder(order) => order.is_right(code),
        }
    }

    fn join(&self, a: u32, b: u32) -> u32 {
        match self {
            AnyOrder::Vector(order) => order.join(a, b),
            AnyOrder::Ladder(order) => order.join(a, b),
        }
    }

    fn permits(&self, code: u32, operation: Operation) -> bool {
        match self {
            AnyOrder::Vector(order) => order.permits(code, operation),
            AnyOrder::Ladder(order) => order.permits(code, operation),
        }
    }
}
