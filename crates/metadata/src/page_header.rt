//! PageHeader: the struct, how it is read and how it is written.

ghost use Rattle.std.specs.Prelude.{◌≡◌, ◌≤◌, ◌⊎◌, ℕ, List, length, IfOk, OnOk, OnErr, IsTrue, true, false};
ghost use Rattle.bits.specs.Refusals.{OnFault, RefusedOnly, RefusedMemoryOnly};
ghost use Rattle.bits.specs.Codec.{NothingStands, NothingStandsEver};
ghost use Rattle.thrift_compact.specs.Tree.{Fields};
ghost use Rattle.thrift_compact.specs.Length.{size_struct, AppendsStruct};
ghost use Rattle.thrift_compact.specs.View.{code_of, field_views, tree_view};
ghost use Rattle.thrift_compact.specs.Reading.{IsNamed};
ghost use Rattle.thrift_compact.specs.Values.{IsRefusedFor, ReadAs};
ghost use Rattle.metadata.specs.FieldValues.{record_by};
ghost use Rattle.metadata.specs.ToTree.{page_header_fields};
ghost use Rattle.metadata.specs.FromTree.{page_header, any_page_header, has_own_header};
ghost use Rattle.metadata.specs.Views.{page_header_view};
ghost use Rattle.metadata.specs.inner.Starts.{page_header_start};
ghost use Rattle.metadata.specs.Answers.{IsRecordOf, StandsFor, AppendsRecord};

use crate::data_page_header::DataPageHeader;
use crate::data_page_header_v2::DataPageHeaderV2;
use crate::dictionary_page_header::DictionaryPageHeader;
use crate::ids::page as ids;
use crate::known::{known_as, needed_as};
use crate::put::{put, put_given};
use crate::slots::{Known, Needed, Others, Slots, optional, read_row, required};
use bits::{R, Refusal};
use std::alloc::Global;
use thrift_compact::{Field, Tree, Unread, one_value, write_struct};

/// The `kind` of a page of version 1.
pub const DATA_PAGE: i32 = 0;

/// The `kind` of a dictionary page.
pub const DICTIONARY_PAGE: i32 = 2;

/// The `kind` of a page of version 2.
pub const DATA_PAGE_V2: i32 = 3;

/// A PageHeader (`parquet.thrift`); `kind` is its `type`, the sizes are of bytes. The header that
/// `kind` names is there in each one that was read.
#[derive(Debug, Drop)]
pub struct PageHeader {
    pub kind: i32,
    pub uncompressed_page_size: Option<i32>,
    pub compressed_page_size: i32,
    pub crc: Option<i32>,
    pub data_page_header: Option<DataPageHeader>,
    pub dictionary_page_header: Option<DictionaryPageHeader>,
    pub data_page_header_v2: Option<DataPageHeaderV2>,
}

impl PageHeader {
    /// The record that a struct is. Refused Thrift exactly when it is none: a known field is of another
    /// type, also where a later one of its id is not, or a needed one is not there. Of a field that
    /// comes twice the last counts; others are skipped.
    pub fn from_tree(alloc: Global, tree: &Tree) -> R<PageHeader>
        ensures stands { IsRecordOf page_header_view (page_header (tree_view tree.now)) result }
    {
        page_header_of(alloc, tree.fields.as_slice())
    }

    /// The record of the struct at the start of the bytes, and how many bytes that struct takes;
    /// what follows is not looked at. By one pass over the struct's bytes.
    ///
    /// Refused Truncated or Thrift only where no prefix of the bytes is such a record, and Thrift only
    /// where none is whatever follows the bytes: a record that is cut is refused Truncated.
    pub fn read(alloc: Global, bytes: &[u8]) -> R<(PageHeader, usize)>
        ensures stands { IfOk result (λ x. StandsFor page_header bytes.now (page_header_view x.0) x.1) }
        ensures within { IfOk result (λ x. x.1 ≤ length bytes.now) }
        ensures only { OnFault result (NothingStands (StandsFor page_header bytes.now)) }
        ensures which { RefusedOnly (λ e. (e ≡ Refusal.Truncated) ⊎ (e ≡ Refusal.Thrift)) result }
        ensures whatever_follows { (result ≡ Err Refusal.Thrift) → NothingStandsEver (StandsFor page_header) bytes.now }
    {
        one_value();
        let value = Unread::of_struct(bytes);
        let (record, used) = any_page_header_from(alloc, value)?;
        if record.has_own_header() {
            Ok((record, used))
        } else {
            Err(Refusal::Thrift)
        }
    }

    /// The struct of the record, in the order of the ids; what is absent is left out.
    ///
    /// Refused Thrift exactly when the header that `kind` names is not there: no struct is such a
    /// record.
    pub fn to_tree(&self, alloc: Global) -> R<Tree>
        ensures stands { IfOk result (λ tree. tree_view tree ≡ page_header_fields (page_header_view self.now)) }
        ensures own { OnOk result (IsTrue (has_own_header (page_header_view self.now))) }
        ensures only { OnFault result ((fields : Fields) → page_header fields ≡ Some (page_header_view self.now) → ⊥) }
        ensures which { RefusedOnly (λ e. (e ≡ Refusal.Thrift) × (has_own_header (page_header_view self.now) ≡ false)) result }
    {
        if !self.has_own_header() {
            return Err(Refusal::Thrift);
        }
        let fields = fields_of_page_header(alloc, self)?;
        Ok(Tree { fields })
    }

    /// Writes the struct of the record at the end of `out`, and nothing else, in the fewest bytes that it
    /// has. What is written is read as this record, whatever follows it.
    ///
    /// Refused Thrift only where no bytes at all are this record: where the header that `kind` names is
    /// not there. After a refusal `out` is unchanged.
    pub fn write(&self, alloc: Global, out: &mut Vec<u8>) -> R<()>
        ensures stands { OnOk result (AppendsStruct (page_header_fields (page_header_view self.now)) out.old.items out.new.items) }
        ensures read_again { let seen = page_header_view self.now in
            OnOk result (AppendsRecord page_header seen (size_struct (page_header_fields seen)) out.old.items out.new.items) }
        ensures only { OnFault result ((bytes : List ℕ) (used : ℕ) → StandsFor page_header bytes (page_header_view self.now) used → ⊥) }
        ensures which { RefusedOnly (λ e. (e ≡ Refusal.Thrift) × (has_own_header (page_header_view self.now) ≡ false)) result }
        ensures unchanged { OnErr result (out.new.items ≡ out.old.items) }
    {
        let tree = self.to_tree(alloc)?;
        write_struct(&tree, out)
    }

    /// Whether the header that `kind` names is there.
    fn has_own_header(&self) -> bool
        ensures { result ≡ has_own_header (page_header_view self.now) }
    {
        match self.kind {
            DATA_PAGE => self.data_page_header.is_some(),
            DICTIONARY_PAGE => self.dictionary_page_header.is_some(),
            DATA_PAGE_V2 => self.data_page_header_v2.is_some(),
            _ => true,
        }
    }
}

/// The record that the fields are.
fn page_header_of(alloc: Global, fields: &[Field]) -> R<PageHeader>
    ensures stands { IsRecordOf page_header_view (page_header (field_views fields.now)) result }
{
    let header = any_page_header_of(alloc, fields)?;
    if header.has_own_header() {
        Ok(header)
    } else {
        Err(Refusal::Thrift)
    }
}

/// The record that the fields are, whether or not the header that its type names is there.
fn any_page_header_of(alloc: Global, fields: &[Field]) -> R<PageHeader>
    ensures stands { IsRecordOf page_header_view (any_page_header (field_views fields.now)) result }
{
    let kind = needed_as(alloc, fields, ids::KIND)?;
    let uncompressed_page_size = known_as(alloc, fields, ids::UNCOMPRESSED_PAGE_SIZE)?;
    let compressed_page_size = needed_as(alloc, fields, ids::COMPRESSED_PAGE_SIZE)?;
    let crc = known_as(alloc, fields, ids::CRC)?;
    let data_page_header = known_as(alloc, fields, ids::DATA_PAGE_HEADER)?;
    let dictionary_page_header = known_as(alloc, fields, ids::DICTIONARY_PAGE_HEADER)?;
    let data_page_header_v2 = known_as(alloc, fields, ids::DATA_PAGE_HEADER_V2)?;
    Ok(PageHeader {
        kind,
        uncompressed_page_size,
        compressed_page_size,
        crc,
        data_page_header,
        dictionary_page_header,
        data_page_header_v2,
    })
}

/// The places of the record's fields.
type Places = Needed<
    i32,
    Known<
        i32,
        Needed<
            i32,
            Known<
                i32,
                Known<DataPageHeader, Known<DictionaryPageHeader, Known<DataPageHeaderV2, Others>>>,
            >,
        >,
    >,
>;

fn places() -> Places
    ensures { ⟦<Places as Slots>⟧.held result ≡ page_header_start }
{
    required(
        ids::KIND,
        optional(
            ids::UNCOMPRESSED_PAGE_SIZE,
            required(
                ids::COMPRESSED_PAGE_SIZE,
                optional(
                    ids::CRC,
                    optional(
                        ids::DATA_PAGE_HEADER,
                        optional(
                            ids::DICTIONARY_PAGE_HEADER,
                            optional(ids::DATA_PAGE_HEADER_V2, Others),
                        ),
                    ),
                ),
            ),
        ),
    )
}

/// The record of the struct that stands there, whether or not the header that its type names is there, and how many bytes it takes.
fn any_page_header_from(alloc: Global, value: Unread<'_>) -> R<(PageHeader, usize)>
    requires named { IsNamed value.kind }
    ensures stands { IfOk result (λ x. ReadAs (record_by any_page_header) (code_of value.entry.kind) value.entry.left value.entry.bytes.now (page_header_view x.0) x.1) }
    ensures within { IfOk result (λ x. x.1 ≤ length value.entry.bytes.now) }
    ensures which { RefusedOnly (IsRefusedFor (ReadAs (record_by any_page_header) (code_of value.entry.kind) value.entry.left) value.entry.bytes.now) result }
{
    let (
        (
            kind,
            (
                uncompressed_page_size,
                (
                    compressed_page_size,
                    (crc, (data_page_header, (dictionary_page_header, (data_page_header_v2, ())))),
                ),
            ),
        ),
        used,
    ) = read_row(alloc, value, places())?;
    let record = PageHeader {
        kind,
        uncompressed_page_size,
        compressed_page_size,
        crc,
        data_page_header,
        dictionary_page_header,
        data_page_header_v2,
    };
    Ok((record, used))
}

/// The fields of the record.
fn fields_of_page_header(alloc: Global, page_header: &PageHeader) -> R<Vec<Field>>
    ensures stands { IfOk result (λ fields. field_views fields.items ≡ page_header_fields (page_header_view page_header.now)) }
    ensures which { RefusedMemoryOnly result }
{
    let mut fields = Vec::with_capacity(alloc, 7)?;
    put(alloc, &mut fields, ids::KIND, &page_header.kind)?;
    put_given(
        alloc,
        &mut fields,
        ids::UNCOMPRESSED_PAGE_SIZE,
        &page_header.uncompressed_page_size,
    )?;
    put(
        alloc,
        &mut fields,
        ids::COMPRESSED_PAGE_SIZE,
        &page_header.compressed_page_size,
    )?;
    put_given(alloc, &mut fields, ids::CRC, &page_header.crc)?;
    put_given(
        alloc,
        &mut fields,
        ids::DATA_PAGE_HEADER,
        &page_header.data_page_header,
    )?;
    put_given(
        alloc,
        &mut fields,
        ids::DICTIONARY_PAGE_HEADER,
        &page_header.dictionary_page_header,
    )?;
    put_given(
        alloc,
        &mut fields,
        ids::DATA_PAGE_HEADER_V2,
        &page_header.data_page_header_v2,
    )?;
    Ok(fields)
}
