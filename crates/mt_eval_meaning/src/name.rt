use mt_tree::Text;
use mt_value::Native;

/// What a name in code stands for.
#[derive(Clone, Copy)]
pub enum Binding {
    /// A variable.
    Slot {
        /// The place of its address in the activation, from 0.
        slot: usize,
        /// Whether it is a constant.
        constant: bool,
    },
    /// A service of that name.
    Service,
    /// A builtin.
    Builtin(Native),
    /// A global variable of a client, which may not be declared yet.
    Global,
}

/// A name where it is used.
#[derive(Drop)]
pub struct Name {
    /// The name itself.
    pub text: Text,
    /// What it stands for there.
    pub binding: Binding,
}
