// What a set-up file says.
use protocol::Policy;

#[derive(Clone, Copy, PartialEq, Eq, Debug)]
pub enum OrderLine {
    Vector,
    Ladder {
        read: u32,
        write: u32,
        restrict: u32,
    },
}

// How a store is made.
#[derive(Clone, Copy, PartialEq, Eq, Debug)]
pub enum Make {
    Slice,
    Table,
    // With so many places for fields.
    Log { places: u16 },
}

#[derive(Drop)]
pub struct StoreLine {
    pub make: Make,
    pub numbers: Vec<u32>,
}

#[derive(Drop)]
pub struct SetupFile {
    pub order: OrderLine,
    pub cells: StoreLine,
    pub rights: StoreLine,
    pub policies: Vec<Policy>,
}
