ghost use Rattle.std.specs.Prelude.{◌≡◌, ◌++◌, ◌∷◌, [], List, All, length, map, ℕ};
ghost use Rattle.std.specs.Str.{str_eq_ignore_ascii_case};
ghost use Rattle.httparse.specs.Spans.{header_bytes, IsHeaderWithin};
ghost use Rattle.mt_http_head.specs.Fields.{value_if, values_of as values_with};
ghost use Rattle.mt_http_head.specs.Parsed.{AreValues};

use httparse::spans::HeaderSpan;

/// The values of the fields that have one name.
#[derive(Clone, Copy)]
pub(crate) enum Values<'a> {
    Nothing,
    One(&'a [u8]),
    Several,
}

fn is_same_name(a: &[u8], b: &[u8]) -> bool
    ensures { result ≡ str_eq_ignore_ascii_case a.now b.now }
{
    a.eq_ignore_ascii_case(b)
}

impl<'a> Values<'a> {
    // With one value more, where its field has the name.
    #[tactic(auto, using(crate::proofs::Finding::with_none, crate::proofs::Finding::with_first, crate::proofs::Finding::with_second, crate::proofs::Finding::with_more))]
    fn with(self, named: bool, value: &'a [u8]) -> Values<'a>
        ensures { (values : List (List ℕ)) → AreValues self.entry values → AreValues result (values ++ value_if named value.now) }
    {
        if !named {
            return self;
        }
        match self {
            Values::Nothing => Values::One(value),
            Values::One(_) | Values::Several => Values::Several,
        }
    }
}

/// The values of the fields that have this name, in whatever letter case.
#[tactic(auto, using(crate::proofs::Finding::values_more))]
pub(crate) fn values_of<'a>(bytes: &'a [u8], spans: &[HeaderSpan], name: &[u8]) -> Values<'a>
    requires { All (IsHeaderWithin (length bytes.now)) spans.now }
    ensures { AreValues result (values_with name.now (map (header_bytes bytes.now) spans.now)) }
{
    let mut values = Values::Nothing;
    for span in spans {
        let named = is_same_name(span.name.of(bytes), name);
        values = values.with(named, span.value.of(bytes));
    }
    values
}
