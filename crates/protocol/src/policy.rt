// What a policy is: who may use it, and on what. Its right stands in a store.

// A cell or a policy, by its number.
#[derive(Clone, Copy, PartialEq, Eq, Debug)]
pub enum Object {
    OfCell(u16),
    OfPolicy(u16),
}

#[derive(Clone, Copy, PartialEq, Eq, Debug)]
pub struct Policy {
    pub subject: u16,
    pub object: Object,
}

// A new number for a cell, or a new right for a policy.
#[derive(Clone, Copy, PartialEq, Eq, Debug)]
pub struct Change {
    pub object: Object,
    pub value: u32,
}
