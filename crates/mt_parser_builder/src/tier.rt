/// Where code runs.
#[derive(Clone, Copy, Debug, PartialEq, Eq)]
pub enum Tier {
    /// Code of the file, and the expressions of dollars.
    Server,
    /// The code of a tilde.
    Client,
}
