//! What holds of the definitions.

ghost use Rattle.std.specs.Prelude.{List, ℕ, ◌++◌};
ghost use Rattle.schema.specs.Values.{ValueTrees};
ghost use Rattle.schema.specs.Shape.{Fields};
ghost use Rattle.metadata.specs.Records.{GroupMeta};
ghost use Rattle.row_group.specs.Chunks.{GroupMeans};
ghost use Rattle.row_group.specs.Limits.{IsGroupOver};
ghost use Rattle.row_group.specs.Laws.{ChunksHoldOneColumn, FilesHoldOneColumn, GroupsHaveOneList, CutGroupsHaveCutRows};
ghost use Rattle.row_group.specs.declared.options.ChunkOptions.{ChunkOptions};
ghost use Rattle.row_group.specs.Writing.{AppendsGroup};

use pages::one_page;
use schema::{columns_determine_rows, cut_rows_are_of_wanted_leaves};

/// The bytes of a chunk hold at most one column of a leaf, and those of a file at most one column where
/// a chunk's record says; a group of a schema has at most one list of rows. So it is also of bytes that
/// nobody has read.
pub fn one_meaning()
    ensures chunk { ChunksHoldOneColumn }
    ensures column { FilesHoldOneColumn }
    ensures group { GroupsHaveOneList }
{
    one_page();
    columns_determine_rows();
}

/// A group that was written at the end of a file's bytes has its rows there, whatever follows it.
pub fn an_appended_group_has_its_rows()
    ensures { (fs : Fields) (o : ChunkOptions) (old new : List ℕ) (g : GroupMeta) (rows : List ValueTrees)
        → AppendsGroup fs o old new g rows → (more : List ℕ) → GroupMeans (new ++ more) fs g rows }
{}

/// A group that was written at the end of a file's bytes is over no limit there, whatever follows it.
pub fn an_appended_group_is_within_limits()
    ensures { (fs : Fields) (o : ChunkOptions) (old new : List ℕ) (g : GroupMeta) (rows : List ValueTrees)
        → AppendsGroup fs o old new g rows → (more : List ℕ) → IsGroupOver (new ++ more) fs g → ⊥ }
{}

/// A group that has rows has, at some of its leaves, these rows cut to them.
pub fn cut_groups_have_cut_rows()
    ensures { CutGroupsHaveCutRows }
{
    cut_rows_are_of_wanted_leaves();
}
