use crate::around::Around;
use mt_syntax::Mark;

/// A name that code uses, or a tilde or dollar in it, with what is around.
#[derive(Drop)]
pub enum Site {
    /// A name that is read, assigned to or stepped.
    Name(Mark, Around),
    /// A tilde, by its place among the program's tildes.
    Tilde(u32, Around),
    /// A dollar directly in a tilde, by its place among the tilde's dollars.
    Dollar(u32, Around),
}
