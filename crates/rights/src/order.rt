// What an order of rights means, and what its calls promise of it.
ghost use Rattle.std.specs.Prelude.{◌≡◌, ℕ, Bool, true, ◌||◌};
ghost use Rattle.rights.specs.Orders.{join_of, permits_of};
ghost use Rattle.rights.specs.declared.order.Operation.{Operation};

#[derive(Clone, Copy, PartialEq, Eq, Debug)]
pub enum Operation {
    // Operation 0: reads a cell or shows a policy.
    Read,
    // Operation 1: writes a cell or relaxes a policy.
    Write,
    // Operation 2: restricts a policy.
    Restrict,
}

// A right is a code of 32 bits. The members and the laws speak of rights alone; what is answered at any other code stands in the promises of the calls, so that no order chooses it.
pub trait RightsOrder {
    // Which codes are rights.
    ghost right: { Self → ℕ → Bool };

    // What two rights join to.
    ghost joined: { Self → ℕ → ℕ → ℕ };

    // Which operations a right permits.
    ghost allows: { Self → ℕ → Operation → Bool };

    fn is_right(&self, code: u32) -> bool
        ensures { result ≡ right self.now code };

    fn join(&self, a: u32, b: u32) -> u32
        ensures { result ≡ join_of (right self.now) (joined self.now) a b };

    fn permits(&self, code: u32, operation: Operation) -> bool
        ensures { result ≡ permits_of (right self.now) (allows self.now) code operation };

    // The join of two rights is a right.
    ghost join_is_right: { (o : Self) (a b : ℕ) → right o a ≡ true → right o b ≡ true → right o (joined o a b) ≡ true };

    // What either of two rights permits, their join permits.
    ghost join_permits: { (o : Self) (a b : ℕ) (p : Operation) → right o a ≡ true → right o b ≡ true → (allows o a p || allows o b p) ≡ true → allows o (joined o a b) p ≡ true };
}
