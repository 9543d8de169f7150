ghost use Rattle.std.specs.Prelude.{◌≡◌, ◌<◌, ◌^◌, List, IsTrue, map, true, Ok};
ghost use Rattle.std.specs.List.{list_all};
ghost use Rattle.mt_eval_meaning.specs.Building.{build, built_all};
ghost use Rattle.mt_marshal.specs.Lawful.{Stays};
ghost use Rattle.mt_marshal.specs.Snapshot.{snap};
ghost use Rattle.mt_syntax.specs.DataLimits.{AreWithinLimits, nodes_of_data};
ghost use Rattle.mt_tree.specs.declared.data.Data.{Data};
ghost use Rattle.mt_value.specs.Lawful.{Lawful, LawfulValue};
ghost use Rattle.mt_value.specs.Limits.{data_fits};
ghost use Rattle.mt_value.specs.declared.cell.Cell.{Cell};

/// A datum whose numbers, texts and names are within their limits, and which has fewer than 2^53 nodes, is built on a lawful store as a
/// lawful value. The store is then lawful again, and each cell that was there is still there and of its kind.
pub fn built_data_are_lawful()
    ensures { (d : Data) (store : List Cell) → IsTrue (data_fits d) → nodes_of_data d < 2 ^ 53 → Lawful store → Stays LawfulValue store (build d store) }
{}

/// Data within the limits of one list, such as those that are read from a text, are of a size that a store can hold.
pub fn data_within_limits_can_be_built()
    ensures { (ds : List Data) → AreWithinLimits ds → list_all data_fits ds ≡ true }
{}

/// The snapshot of what was built of data within the limits is these data, on whatever store they were built.
pub fn built_data_are_their_snapshot()
    ensures { (ds : List Data) → AreWithinLimits ds → (store : List Cell) → snap (built_all (map build ds) store).1 (built_all (map build ds) store).0 ≡ Ok ds }
{}
