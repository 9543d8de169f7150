ghost use Rattle.std.specs.Prelude.{◌≡◌};
ghost use Rattle.mt_marshal.specs.Rules.{number_of};

/// A rule of marshalling. It is written `M` and its number.
#[derive(Clone, Copy, Debug, PartialEq, Eq)]
pub enum MarshalRule {
    /// No function and no builtin can be marshalled.
    M1,
    /// No HTML value can.
    M2,
    /// No client code, call of a service, node of a document or event can.
    M3,
    /// No array or object stands in itself.
    M4,
    /// Arrays and objects stand at most 40 deep, and there are at most 20,000 nodes.
    M5,
    /// The texts, the names of properties and the names of services have at most 262,144 bytes of UTF-8.
    M6,
}

impl MarshalRule {
    /// Its number, from 1 to 6. Takes no memory.
    pub fn number(self) -> u8
        ensures { result ≡ number_of self }
    {
        match self {
            MarshalRule::M1 => 1,
            MarshalRule::M2 => 2,
            MarshalRule::M3 => 3,
            MarshalRule::M4 => 4,
            MarshalRule::M5 => 5,
            MarshalRule::M6 => 6,
        }
    }
}
