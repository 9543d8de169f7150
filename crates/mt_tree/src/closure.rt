use crate::data::Data;
use crate::row::Row;

/// Client code as the server keeps it: which tilde of the program it is, and the values of the tilde's dollars.
#[derive(Drop)]
pub struct Closure {
    /// The tilde's number in the program's text order, from 0.
    pub tilde: u32,
    /// The values of its dollars, in text order.
    pub values: Row<Data>,
}
