// Where a sector of a bank is: the number of its drive, and its own number there.

#[derive(Clone, Copy, PartialEq, Eq, Debug)]
pub struct Address {
    pub drive: u8,
    pub sector: u64,
}
