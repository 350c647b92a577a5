//! What holds of the definitions.

ghost use Rattle.partition.specs.Folders.{PathsNameKeys, PartPathsNameParts, PartPathsAreNotRoots, KeysCanPartition};
ghost use Rattle.partition.specs.Nesting.{FewerCanPartition, FoldersNest, PartNamesArePlain};

/// A path names one key: the paths of different keys differ.
#[tactic(auto, using(crate::proofs::Naming::paths_name_keys))]
pub fn paths_name_keys()
    ensures { PathsNameKeys }
{}

/// The path of a part file names one key and one number: those of other keys or with other numbers differ.
#[tactic(auto, using(crate::proofs::PartNaming::part_paths_name_parts))]
pub fn part_paths_name_parts()
    ensures { PartPathsNameParts }
{}

/// The path of a part file is not that of the table's description, of the file that this is written to first, or of a
/// folder above either; and neither of these is a folder above a part file.
pub fn part_paths_are_not_roots()
    ensures { PartPathsAreNotRoots }
{}

/// Key columns that can partition a schema whose fields have names of their own can partition a key.
#[tactic(auto, using(crate::proofs::KeyColumns::keys_can))]
pub fn schema_keys_can_partition()
    ensures { KeysCanPartition }
{}

/// A key that can partition can do so by its first columns.
pub fn fewer_columns_can_partition()
    ensures { FewerCanPartition }
{}

/// The folders of a key nest: each is a name in the folder of the columns before it.
pub fn folders_nest()
    ensures { FoldersNest }
{}

/// The name of a part file is not empty, and has no slash.
pub fn part_names_are_plain()
    ensures { PartNamesArePlain }
{}
