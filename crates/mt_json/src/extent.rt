use mt_tree::{Data, Entry, Text};

/// How large data are, each count told up to 2^64 - 1.
#[derive(Clone, Copy, Debug)]
pub(crate) struct Extent {
    /// How deep arrays and objects nest.
    pub(crate) depth: u64,
    /// How many nodes there are.
    pub(crate) nodes: u64,
    /// The bytes of the texts, the names of properties and the names of services.
    pub(crate) bytes: u64,
}

impl Extent {
    ghost use Rattle.std.specs.Prelude.{◌≡◌, suc, ◌+◌, max, map, sum};
    ghost use Rattle.mt_syntax.specs.Depth.{greatest};
    ghost use Rattle.mt_syntax.specs.DataLimits.{bytes_of_data, bytes_of_entry, depth_of_data, depth_of_entry, nodes_of_data, nodes_of_entry, text_bytes};
    ghost use Rattle.mt_json.specs.Extent.{capped, HasExtent};

    fn larger(a: u64, b: u64) -> u64
        ensures { result ≡ max a b }
    {
        if a < b { b } else { a }
    }

    // of two parts that stand side by side
    fn and(self, other: Extent) -> Extent
        ensures depth { result.depth ≡ max self.depth other.depth }
        ensures nodes { result.nodes ≡ capped (self.nodes + other.nodes) }
        ensures bytes { result.bytes ≡ capped (self.bytes + other.bytes) }
    {
        Extent {
            depth: Self::larger(self.depth, other.depth),
            nodes: self.nodes.saturating_add(other.nodes),
            bytes: self.bytes.saturating_add(other.bytes),
        }
    }

    fn nothing() -> Extent
        ensures { HasExtent result 0 0 0 }
    {
        Extent {
            depth: 0,
            nodes: 0,
            bytes: 0,
        }
    }

    // of a node round what has this extent
    fn opened(self) -> Extent
        ensures depth { result.depth ≡ capped (self.depth + 1) }
        ensures nodes { result.nodes ≡ capped (self.nodes + 1) }
        ensures bytes { result.bytes ≡ self.bytes }
    {
        Extent {
            depth: self.depth.saturating_add(1),
            nodes: self.nodes.saturating_add(1),
            bytes: self.bytes,
        }
    }

    fn of_text(text: &Text) -> u64
        ensures { result ≡ capped (text_bytes text.now) }
    {
        text.as_str().len() as u64
    }

    #[cycle(extent)]
    fn of_datum(datum: &Data) -> Extent
        ensures { HasExtent result (depth_of_data datum.now) (nodes_of_data datum.now) (bytes_of_data datum.now) }
    {
        match datum {
            Data::Text(text) | Data::Svc(text) => Extent {
                depth: 0,
                nodes: 1,
                bytes: Extent::of_text(text),
            },
            Data::Arr(items) => Extent::of_items(items.items()).opened(),
            Data::Obj(entries) => Extent::of_entries(entries.items()).opened(),
            Data::Undefined | Data::Null | Data::Bool(_) | Data::Num(_) => Extent {
                depth: 0,
                nodes: 1,
                bytes: 0,
            },
        }
    }

    /// The extent of a list of data.
    #[cycle(extent)]
    pub(crate) fn of_items(items: &[Data]) -> Extent
        ensures { HasExtent result (greatest (map depth_of_data items.now)) (sum (map nodes_of_data items.now)) (sum (map bytes_of_data items.now)) }
    {
        let mut all = Extent::nothing();
        for item in items {
            all = all.and(Extent::of_datum(item));
        }
        all
    }

    #[cycle(extent)]
    fn of_entry(entry: &Entry) -> Extent
        ensures { HasExtent result (depth_of_entry entry.now) (nodes_of_entry entry.now) (bytes_of_entry entry.now) }
    {
        let value = Extent::of_datum(&entry.value);
        Extent {
            depth: value.depth,
            nodes: value.nodes,
            bytes: Extent::of_text(&entry.name).saturating_add(value.bytes),
        }
    }

    #[cycle(extent)]
    fn of_entries(entries: &[Entry]) -> Extent
        ensures { HasExtent result (greatest (map depth_of_entry entries.now)) (sum (map nodes_of_entry entries.now)) (sum (map bytes_of_entry entries.now)) }
    {
        let mut all = Extent::nothing();
        for entry in entries {
            all = all.and(Extent::of_entry(entry));
        }
        all
    }
}
