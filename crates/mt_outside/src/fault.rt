/// A call on the outside failed. The count of faults that belongs to the call rose, or stands at 2^64 - 1.
#[derive(Clone, Copy, Debug, PartialEq, Eq)]
pub struct Failed;

/// Why something could not be written or sent.
#[derive(Clone, Copy, Debug, PartialEq, Eq)]
pub enum SendFault {
    /// The call failed. The count of faults that belongs to it rose, or stands at 2^64 - 1.
    Failed,
    /// A form in memory could not grow.
    NoMemory,
}
