use mt_value::{Globals, Store};

/// What the evaluation of code changes, its host aside.
#[derive(Drop)]
pub struct State {
    /// The cells.
    pub store: Store,
    /// The global variables, which a client alone has.
    pub globals: Globals,
    /// The steps that are left.
    pub budget: u64,
}
