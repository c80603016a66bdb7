/// At how many events of the trail every call fails, and which image a restart leaves then.
#[derive(Clone, Copy, Debug, PartialEq, Eq)]
pub struct Stop {
    pub at: u64,
    pub pick: u32,
}
