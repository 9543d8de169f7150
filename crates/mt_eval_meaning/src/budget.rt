/// The steps that a job has left.
#[derive(Drop)]
pub struct Budget {
    /// How many.
    pub left: u64,
}
