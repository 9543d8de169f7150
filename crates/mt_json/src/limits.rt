ghost use Rattle.std.specs.Prelude.{◌↔◌, IsTrue, IfOk};
ghost use Rattle.mt_syntax.specs.DataLimits.{AreWithinLimits};

use crate::datum::are_data;
use crate::extent::Extent;
use mt_tree::{DATA_BYTE_LIMIT, DATA_DEPTH_LIMIT, DATA_NODE_LIMIT, Data, NoMemory};
use std::alloc::Global;

/// Whether the trees are data within the limits of one list: each nests at most 40 deep, and together they have at most 20,000
/// nodes, and at most 262,144 bytes in their texts, the names of their properties and of their services.
///
/// # Errors
/// `NoMemory`.
pub fn are_within_limits(alloc: Global, items: &[Data]) -> Result<bool, NoMemory>
    ensures { IfOk result (λ fit. IsTrue fit ↔ AreWithinLimits items.now) }
{
    let extent = Extent::of_items(items);
    let small = extent.depth <= u64::from(DATA_DEPTH_LIMIT)
        && extent.nodes <= DATA_NODE_LIMIT
        && extent.bytes <= DATA_BYTE_LIMIT;
    Ok(small && are_data(alloc, items)?)
}
