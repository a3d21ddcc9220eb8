// How many transactions were opened, and how many of them have committed.
#[derive(Clone, Copy, PartialEq, Eq, Default, Debug)]
pub struct Counts {
    pub opened: u16,
    pub commits: u16,
}
