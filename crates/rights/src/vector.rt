// Rights made of weights: each operation has one, and a right permits the operations whose weights it contains.
ghost use Rattle.std.specs.Prelude.{◌≡◌};
ghost use Rattle.rights.specs.Orders.{weight, vector_right, vector_joined, vector_allows};
ghost use Rattle.rights.specs.VectorLaws.{vector_join_is_right, vector_join_permits};

use crate::order::{Operation, RightsOrder};

#[derive(Clone, Copy, PartialEq, Eq, Debug)]
pub struct VectorOrder;

// No discriminants of `Operation`: the weights are this order's own, and every order shares the enum.
fn weight(operation: Operation) -> u32
    ensures { result ≡ weight operation }
{
    match operation {
        Operation::Read => 4,
        Operation::Write => 2,
        Operation::Restrict => 1,
    }
}

impl RightsOrder for VectorOrder {
    ghost right = { λ _. vector_right };

    ghost joined = { λ _. vector_joined };

    ghost allows = { λ _. vector_allows };

    ghost join_is_right = { λ o. vector_join_is_right };

    ghost join_permits = { λ o. vector_join_permits };

    fn is_right(&self, code: u32) -> bool {
        code <= 7
    }

    fn join(&self, a: u32, b: u32) -> u32 {
        if self.is_right(a) && self.is_right(b) {
            a | b
        } else {
            0
        }
    }

    fn permits(&self, code: u32, operation: Operation) -> bool {
        let weight = weight(operation);
        self.is_right(code) && code & weight == weight
    }
}
