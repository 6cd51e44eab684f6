/// A finish record: the firing of the task ended when the clock came to `clock`.
#[derive(Clone, Copy, PartialEq, Eq, Debug)]
pub struct Record {
    pub task: usize,
    pub firing: u64,
    pub clock: u64,
}
