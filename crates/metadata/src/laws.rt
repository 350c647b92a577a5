//! What holds of the definitions.

ghost use Rattle.std.specs.Prelude.{◌≡◌, Some, true};
ghost use Rattle.bits.specs.Codec.{IsFunctional};
ghost use Rattle.schema.specs.Elements.{Element};
ghost use Rattle.metadata.specs.Records.{KeyValue, Statistics, ColumnMeta, ChunkMeta, GroupMeta, ColumnOrder, DataPageHeader, DictionaryPageHeader, DataPageHeaderV2, FileMeta, PageHeader};
ghost use Rattle.metadata.specs.FromTree.{key_value, statistics, column_meta, chunk_meta, group_meta, column_order, element, data_page_header, dictionary_page_header, data_page_header_v2, file_meta, page_header, has_own_header};
ghost use Rattle.metadata.specs.ToTree.{key_value_fields, statistics_fields, column_meta_fields, chunk_meta_fields, group_meta_fields, column_order_fields, element_fields, data_page_header_fields, dictionary_page_header_fields, data_page_header_v2_fields, file_meta_fields, page_header_fields};
ghost use Rattle.metadata.specs.Answers.{StandsFor};
ghost use Rattle.metadata.specs.Begun.{FootersGrow, GroupsGrow, ChunksFollow};

use thrift_compact::{one_struct, structs_are_written_in_pieces, structs_of_the_shape_nest};

/// The struct that is written for a footer is that footer.
pub fn footer_again()
    ensures { (m : FileMeta) → file_meta (file_meta_fields m) ≡ Some m }
{}

/// The struct that is written for a record is that record.
pub fn records_again()
    ensures key_value { (x : KeyValue) → key_value (key_value_fields x) ≡ Some x }
    ensures statistics { (x : Statistics) → statistics (statistics_fields x) ≡ Some x }
    ensures column_meta { (x : ColumnMeta) → column_meta (column_meta_fields x) ≡ Some x }
    ensures chunk_meta { (x : ChunkMeta) → chunk_meta (chunk_meta_fields x) ≡ Some x }
    ensures group_meta { (x : GroupMeta) → group_meta (group_meta_fields x) ≡ Some x }
    ensures column_order { (x : ColumnOrder) → column_order (column_order_fields x) ≡ Some x }
    ensures element { (x : Element) → element (element_fields x) ≡ Some x }
    ensures data_page_header { (x : DataPageHeader) → data_page_header (data_page_header_fields x) ≡ Some x }
    ensures dictionary_page_header { (x : DictionaryPageHeader) → dictionary_page_header (dictionary_page_header_fields x) ≡ Some x }
    ensures data_page_header_v2 { (x : DataPageHeaderV2) → data_page_header_v2 (data_page_header_v2_fields x) ≡ Some x }
{}

/// The struct that is written for a page header is that header, where the header that its type names
/// is there.
pub fn page_header_again()
    ensures { (h : PageHeader) → has_own_header h ≡ true → page_header (page_header_fields h) ≡ Some h }
{}

/// A prefix of the bytes stands for at most one footer.
pub fn one_footer()
    ensures { IsFunctional (StandsFor file_meta) }
{
    one_struct();
}

/// A prefix of the bytes stands for at most one record of a chunk.
pub fn one_chunk()
    ensures { IsFunctional (StandsFor chunk_meta) }
{
    one_struct();
}

/// A prefix of the bytes stands for at most one page header.
pub fn one_page_header()
    ensures { IsFunctional (StandsFor page_header) }
{
    one_struct();
}

/// A footer goes on by the record of a group that is written behind it, a group's record by the record of a chunk, and
/// the start of a chunk's record by the rest of one.
pub fn footers_are_written_in_pieces()
    ensures footers { FootersGrow }
    ensures groups { GroupsGrow }
    ensures chunks { ChunksFollow }
{
    structs_are_written_in_pieces();
    structs_of_the_shape_nest();
}
