// A piece of the ground: where it begins, how many bytes were asked for, and how many it takes.
#[derive(Clone, Copy, Debug, PartialEq, Eq)]
pub struct Block {
    pub at: u64,
    pub size: u64,
    pub room: u64,
}
