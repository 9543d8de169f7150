use std::marker::Model;

/// The place of a cell in a [`Store`](crate::Store), counted from 0. Only the calls of a store make one. Contracts see the
/// number alone.
#[derive(Clone, Copy, PartialEq, Eq)]
pub struct Address {
    pub(crate) place: usize,
}

impl Model for Address {
    ghost use Rattle.std.specs.Prelude.{ℕ};
    ghost use Rattle.std.specs.Coded.{coded_ℕ};

    ghost Value = { ℕ };

    ghost coded = { coded_ℕ };

    ghost view = { λ address. address.place };

    ghost inverse = { λ place. record { place = place } };
}
