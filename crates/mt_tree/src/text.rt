ghost use Rattle.std.specs.Prelude.{◌≡◌, ◌↔◌, true, IfOk, IsTrue};
ghost use Rattle.std.specs.Str.{chars, encode_utf8_all, all_scalars};
ghost use Rattle.mt_tree.specs.Text.{units_of};

use crate::fault::NoMemory;
use crate::units::units;
use std::alloc::Global;
use std::marker::Model;
use std::rc::RcStr;

/// A text that never changes, and whose contents are shared by counting. Contracts see the list of its characters, each a
/// Unicode scalar value, so a text and those that share its contents are the same value. Its length in units of UTF-16 is
/// counted once, when it is made.
#[derive(Drop)]
pub struct Text {
    inner: RcStr,
    units: usize,
}

impl Model for Text {
    ghost use Rattle.std.specs.Prelude.{List, ℕ};
    ghost use Rattle.std.specs.Str.{chars};
    ghost use Rattle.std.specs.Rc.{rc_str_bytes};
    ghost use Rattle.std.specs.Prelude.{◌≡◌};
    ghost use Rattle.mt_tree.specs.Text.{units_of};

    ghost Value = { List ℕ };

    ghost view = { λ text. chars (rc_str_bytes text.inner) };

    ghost invariant = { λ text. text.units ≡ units_of (chars (rc_str_bytes text.inner)) };
}

impl Text {
    /// Copies a text.
    ///
    /// # Errors
    /// `NoMemory`.
    pub fn from_str(alloc: Global, text: &str) -> Result<Text, NoMemory>
        ensures { IfOk result (λ made. made ≡ chars text.now) }
    {
        match RcStr::from_str(alloc, text) {
            Ok(inner) => Ok(Text {
                inner,
                units: units(text),
            }),
            Err(_refused) => Err(NoMemory),
        }
    }

    /// Lends the characters. Takes no memory.
    pub fn as_str(&self) -> &str
        ensures value { chars result.now ≡ self.now }
        ensures bytes { result.now ≡ encode_utf8_all self.now }
        ensures scalars { all_scalars self.now ≡ true }
    {
        self.inner.as_str()
    }

    /// Lends the bytes of the text in UTF-8. Takes no memory.
    pub fn as_bytes(&self) -> &[u8]
        ensures { result.now ≡ encode_utf8_all self.now }
    {
        self.as_str().as_bytes()
    }

    /// Whether the text has just these characters. Takes no memory.
    pub fn is(&self, text: &str) -> bool
        ensures { IsTrue result ↔ (self.now ≡ chars text.now) }
    {
        same_text(self.as_str(), text)
    }

    /// An equal text, which shares the contents and copies none.
    ///
    /// # Errors
    /// `NoMemory` where the count of sharers is at its last value.
    pub fn share(&self) -> Result<Text, NoMemory>
        ensures { IfOk result (λ made. made ≡ self.now) }
    {
        match self.inner.clone() {
            Ok(inner) => Ok(Text {
                inner,
                units: self.units,
            }),
            Err(_refused) => Err(NoMemory),
        }
    }

    /// The length in units of UTF-16: one for each character up to U+FFFF, and two for each above it. Takes no memory, and
    /// the same time however long the text is.
    pub fn units(&self) -> u64
        ensures { result ≡ units_of self.now }
    {
        self.units as u64
    }
}

impl PartialEq for Text {
    ghost use Rattle.std.specs.Prelude.{nat_eq};
    ghost use Rattle.std.specs.Cmp.{partial_equiv_from_equiv};
    ghost use Rattle.std.specs.Cmp.Lexicographic.{pointwise, nat_list_eq_equiv};

    ghost eq = { pointwise nat_eq };

    ghost laws = { partial_equiv_from_equiv nat_list_eq_equiv };

    fn eq(&self, other: &Text) -> bool {
        self.as_str() == other.as_str()
    }
}

fn same_text(a: &str, b: &str) -> bool
    ensures { IsTrue result ↔ (chars a.now ≡ chars b.now) }
{
    a == b
}
