//! What holds of the definitions.

ghost use Rattle.manifest.specs.Root.{IsDescription};
ghost use Rattle.manifest.specs.Worked.{letters_and_numbers};
ghost use Rattle.manifest.specs.Laws.{LaidOutRootsMean, GroupsAreOne, PartsMeanTheirRows, RowsOfPartsFit, WrittenPartsHoldGroups, GroupsAsWrittenAreGroups, KnownOfPartsHolds, RootsMeanOneTable, TablesAreOne, FilesAreTables, GrownRootsAreDescribed, GrownPartsMeanRows, GrownTablesStand};

/// A root as it is laid out has the description that it was made of.
pub fn a_laid_out_root_means_its_table()
    ensures { LaidOutRootsMean }
{
    schema::a_schema_is_its_elements();
}

/// The record of a group describes at most one group.
pub fn groups_are_one()
    ensures { GroupsAreOne }
{
    partition::part_paths_name_parts();
    statistics::one_bound();
}

/// The bytes of a part file mean its rows, without their keys and padded.
pub fn parts_mean_their_rows()
    ensures { PartsMeanTheirRows }
{}

/// The rows of a group fit the table.
pub fn rows_of_parts_fit()
    ensures { RowsOfPartsFit }
{}

/// A file as the store writes it, of rows that make one group, holds each group with the chunks of its record.
pub fn written_parts_hold_groups()
    ensures { WrittenPartsHoldGroups }
{
    metadata::one_footer();
    schema::a_schema_is_its_elements();
    row_group::an_appended_group_has_its_rows();
    row_group::an_appended_group_is_within_limits();
    statistics::one_bound();
}

/// A group as it is written can be a group of a table.
pub fn groups_as_written_are_groups()
    ensures { GroupsAsWrittenAreGroups }
{}

/// What is known of a group over all leaves holds of its rows, padded.
pub fn known_of_parts_holds()
    ensures { KnownOfPartsHolds }
{}

/// The bytes of a root describe at most one table.
pub fn a_root_means_one_table()
    ensures { RootsMeanOneTable }
{
    metadata::one_footer();
    schema::a_list_means_one_schema();
    partition::part_paths_name_parts();
    statistics::one_bound();
}

/// Files are at most one table.
pub fn tables_are_one()
    ensures { TablesAreOne }
{
    a_root_means_one_table();
    footer::one_list_of_rows();
    schema::a_row_is_its_key_and_the_rest();
}

/// The files of a folder are a table: what its parts hold fits the schema, has its group's key, and stands in table order.
pub fn files_are_tables()
    ensures { FilesAreTables }
{}

/// A described table can be described with a further OPTIONAL field.
pub fn grown_roots_are_described()
    ensures { GrownRootsAreDescribed }
{}

/// The part files of a table to which an OPTIONAL field was added mean the same rows, with Null at the end of each.
pub fn grown_parts_mean_rows()
    ensures { GrownPartsMeanRows }
{}

/// A table with the root of a further field and its part files as they were is the table with Null at the end of each row.
pub fn grown_tables_stand()
    ensures { GrownTablesStand }
{}

/// A table of letters and numbers, by letter, with one row in one group, can be described.
pub fn a_table_by_letter_is_described()
    ensures { IsDescription letters_and_numbers }
{}
