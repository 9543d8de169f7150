ghost use Rattle.std.specs.Prelude.{◌≡◌, IfOk};

use mt_tree::{NoMemory, Text};
use std::marker::Model;

/// The slot of a name in a scope.
#[derive(Drop)]
pub struct Slot {
    /// The name.
    pub name: Text,
    /// The place of its address in the activation, from 0.
    pub slot: usize,
    /// Whether it is a constant.
    pub constant: bool,
}

impl Model for Slot {
    ghost use Rattle.mt_eval_meaning.specs.Scopes as spec;

    ghost Value = { spec.Slot };

    ghost view = { λ slot. record { name = slot.name; slot = slot.slot; constant = slot.constant } };
}

impl Slot {
    /// An equal slot, which shares the name.
    ///
    /// # Errors
    /// `NoMemory` where the count of the name's sharers is at its last value.
    pub fn share(&self) -> Result<Slot, NoMemory>
        ensures { IfOk result (λ copy. copy ≡ self.now) }
    {
        Ok(Slot {
            name: self.name.share()?,
            slot: self.slot,
            constant: self.constant,
        })
    }
}
