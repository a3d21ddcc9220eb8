// What an open transaction asks for, by the number of the cell or the policy.

#[derive(Clone, Copy)]
pub enum Call {
    Deploys { policy: u16 },
    Reads { cell: u16 },
    Writes { cell: u16, value: u32 },
    Shows { policy: u16 },
    Sets { policy: u16, right: u32 },
}
