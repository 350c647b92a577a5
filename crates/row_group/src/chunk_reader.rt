//! The entries of a chunk, one by one.

ghost use Rattle.std.specs.Prelude.{◌≡◌, ◌≢◌, ◌<ℤ◌, ◌&&◌, pos, List, [], length, true, false, IfOk, IfErr, Err, option_map, is_some};
ghost use Rattle.bits.specs.Faults.{refusal_of};
ghost use Rattle.bits.specs.Refusals.{OnFault, RefusedOnly};
ghost use Rattle.bits.specs.Codec.{NothingStands};
ghost use Rattle.schema.specs.Borrowed.{entry_ref_view, value_ref_view};
ghost use Rattle.schema.specs.Views.{leaf_view, leaf_type_view};
ghost use Rattle.metadata.specs.Views.{column_meta_view};
ghost use Rattle.bits.specs.declared.refusal.Refusal.{Refusal};
ghost use Rattle.row_group.specs.Chunks.{ChunkMeans};
ghost use Rattle.row_group.specs.Greatest.{most_entries};
ghost use Rattle.row_group.specs.Limits.{IsOfChunks};
ghost use Rattle.row_group.specs.PageLeft.{page_left, values_fit};
ghost use Rattle.row_group.specs.PagesView.{pages_view};
ghost use Rattle.row_group.specs.inner.Pages.{AcceptedWhere, kept_fault};

use crate::chunk_record::check_record;
use crate::pages_left::PagesLeft;
use assemble::EntrySource;
use bits::{Fault, R, Refusal};
use metadata::ColumnMeta;
use pages::{DataPage, one_page};
use schema::{EntryRef, Leaf, LeafType, ValueRef};
use std::alloc::Global;

/// Gives the entries of a chunk one by one, and reads its pages as it goes: it holds the entries of
/// one page at a time, and the values of the dictionary. Values are borrowed from the bytes.
///
/// A fault in a page is found when its first entry is asked for. Then nothing stands, and the same
/// fault is returned from then on.
#[derive(Debug, Drop)]
pub struct ChunkReader<'a> {
    pub(crate) pages: PagesLeft<'a>,
    /// The page that was read last.
    pub(crate) page: Option<DataPage<'a>>,
    /// Why a page was refused, if one was.
    pub(crate) fault: Option<Fault>,
    /// Whether the chunk was accepted: then its pages are read without a second check.
    pub(crate) is_accepted: bool,
    /// What is left of the page was checked when it was read: the values are the leaf's.
    ghost of_leaf: { values_fit (leaf_type_view pages.leaf.now.leaf_type) (page_left page) ≡ true },
    /// What is left of an accepted chunk stands.
    ghost accepted: { AcceptedWhere is_accepted (pages_view pages) },
    /// No page is held where a page was refused, so that a page is used without a look at the fault.
    ghost no_page_refused: { (is_some fault && is_some page) ≡ false },
}

impl<'a> ChunkReader<'a> {
    ghost use Rattle.row_group.specs.Causes.{IsCause, IsCaused, IsChunkCause};
    ghost use Rattle.row_group.specs.Left.{reader_view, StandsForChunk};
    ghost use Rattle.row_group.specs.inner.Readers.{Fills, PeeksPage};

    /// A reader of all entries of a chunk, whose pages begin where `bytes` does. No page is read.
    ///
    /// Refused Schema where the record has not the path and the type of the leaf; Codec where the chunk
    /// is compressed; Page for a negative number of entries; Limit for more than
    /// [`MOST_ENTRIES_OF_CHUNK`](crate::MOST_ENTRIES_OF_CHUNK) entries.
    /// (`parquet.thrift`, ColumnMetaData.)
    pub fn new(
        alloc: Global,
        bytes: &'a [u8],
        meta: &ColumnMeta,
        leaf: &'a Leaf,
    ) -> R<ChunkReader<'a>>
        ensures stands { IfOk result (StandsForChunk (column_meta_view meta.now) (leaf_view leaf.now) bytes.now) }
        ensures causes { IfOk result (λ r. (e : Refusal) → IsCause (reader_view r) e → IsChunkCause (column_meta_view meta.now) (leaf_view leaf.now) bytes.now e) }
        ensures only { OnFault result (NothingStands (ChunkMeans (column_meta_view meta.now) (leaf_view leaf.now) bytes.now)) }
        ensures limit { result ≡ Err Refusal.Limit → most_entries <ℤ (column_meta_view meta.now).num_values }
        ensures codec { result ≡ Err Refusal.Codec → (column_meta_view meta.now).codec ≢ pos 0 }
        ensures which { RefusedOnly IsOfChunks result }
    {
        let count = check_record(meta, leaf)?;
        Ok(ChunkReader {
            pages: PagesLeft::new(alloc, bytes, leaf, count),
            page: None,
            fault: None,
            is_accepted: false,
        })
    }

    /// This reader, which reads the pages without a second check where its chunk was accepted.
    pub(crate) fn accepted_where(mut self, is_accepted: bool) -> ChunkReader<'a>
        requires { AcceptedWhere is_accepted (pages_view self.pages) }
        ensures { reader_view result ≡ reader_view self.entry }
    {
        self.is_accepted = is_accepted;
        self
    }

    /// Reads on until an entry is there, or none is left. Refused with the fault that is kept, or with
    /// that of a page, which is kept unless it is Memory.
    #[inline(always)]
    fn fill(&mut self) -> Result<(), Fault>
        ensures fills { Fills (reader_view self.old) (reader_view self.new) result }
        ensures caused { IsCaused (reader_view self.old) (reader_view self.new) result }
    {
        if self.page_len() > 0 {
            return Ok(());
        }
        self.read_next_page()
    }

    /// Reads the next page with entries, where none is left of the page that was read last. Refused with
    /// the fault that is kept, or with that of a page, which is kept unless it is Memory.
    // Once a page: kept apart, so that what is done for each entry stays small.
    #[cold]
    #[inline(never)]
    fn read_next_page(&mut self) -> Result<(), Fault>
        requires { page_left self.old.page ≡ [] }
        ensures fills { Fills (reader_view self.old) (reader_view self.new) result }
        ensures caused { IsCaused (reader_view self.old) (reader_view self.new) result }
    {
        if let Some(fault) = self.fault {
            return Err(fault);
        }
        self.page = None;
        match self.pages.next_page(self.is_accepted) {
            Ok(page) => {
                self.page = page;
                Ok(())
            }
            Err(fault) => {
                self.fault = kept(fault);
                Err(fault)
            }
        }
    }

    /// The levels of the next entry, where the page that was read last has it.
    #[inline(always)]
    fn peek_page(&self) -> Option<(u32, u32)>
        ensures { PeeksPage (reader_view self.now) result }
    {
        match &self.page {
            Some(page) => page.peek(),
            None => None,
        }
    }

    /// How many entries of the page are not taken yet.
    #[inline(always)]
    fn page_len(&self) -> usize
        ensures { result ≡ length (page_left self.now.page) }
    {
        match &self.page {
            Some(page) => page.len(),
            None => 0,
        }
    }
}

/// The fault, unless it is Memory: that one may not come again.
fn kept(fault: Fault) -> Option<Fault>
    ensures { result ≡ kept_fault fault }
{
    match fault {
        Fault::Memory => None,
        _ => Some(fault),
    }
}

impl<'a> ChunkReader<'a> {
    ghost use Rattle.row_group.specs.Causes.{CausesStay, IsCaused};
    ghost use Rattle.row_group.specs.Left.{reader_view};
    ghost use Rattle.row_group.specs.inner.Readers.{GivesPlain, AdvancesReader, last_taken};

    /// Takes the next entry where the page that was read last gives it in PLAIN with both levels 0, and
    /// returns its value. Returns none for another entry, and at the end of that page, and then takes nothing.
    // Most values of columns without levels come through here: no more is looked at than for one value.
    #[inline(always)]
    fn next_plain(&mut self) -> Option<ValueRef<'a>>
        ensures gives { GivesPlain (reader_view self.old) (reader_view self.new) result }
        ensures caused { CausesStay (reader_view self.old) (reader_view self.new) }
    {
        match &mut self.page {
            Some(page) => page.next_plain(),
            None => None,
        }
    }

    // For the proof: the value as one that the reader lends.
    #[inline(always)]
    fn lent(&self, value: ValueRef<'a>) -> ValueRef<'_>
        ensures { value_ref_view result ≡ value_ref_view value.entry }
    {
        value
    }

    /// Takes the next entry, if there is one: `entry` is that one from then on. Refused as `fill`.
    #[inline(always)]
    fn advance(&mut self) -> Result<bool, Fault>
        ensures advances { AdvancesReader (reader_view self.old) (reader_view self.new) (last_taken self.new) result }
        ensures caused { IsCaused (reader_view self.old) (reader_view self.new) result }
    {
        self.fill()?;
        match &mut self.page {
            None => Ok(false),
            Some(page) => page.advance(),
        }
    }

    /// The entry that was taken last; before the first one, an entry without a value.
    #[inline(always)]
    fn entry(&self) -> EntryRef<'_>
        ensures { entry_ref_view result ≡ last_taken self.now }
    {
        match &self.page {
            Some(page) => page.entry(),
            None => EntryRef {
                repetition: 0,
                definition: 0,
                value: None,
            },
        }
    }
}

impl<'a> EntrySource for ChunkReader<'a> {
    ghost use Rattle.row_group.specs.Causes.{reader_cause};
    ghost use Rattle.row_group.specs.Left.{chunk_stands, chunk_checked};

    ghost stands = { chunk_stands };

    ghost refused = { λ r. option_map refusal_of r.fault };

    ghost cause = { reader_cause };

    ghost checked = { chunk_checked };

    /// Whether values of the reader's leaf fit this type: each was checked when its page was read.
    #[inline(always)]
    fn has_checked(&self, leaf_type: &LeafType) -> bool {
        let own = &self.pages.leaf.leaf_type;
        own.kind == leaf_type.kind && (own.is_text() || !leaf_type.is_text())
    }

    #[inline(always)]
    fn peek(&mut self) -> R<Option<(u32, u32)>> {
        if let Some(levels) = self.peek_page() {
            return Ok(Some(levels));
        }
        self.fill()?;
        match &self.page {
            None => Ok(None),
            Some(page) => Ok(page.peek()),
        }
    }

    #[inline(always)]
    fn next(&mut self) -> Result<Option<EntryRef<'_>>, Fault> {
        if let Some(value) = self.next_plain() {
            return Ok(Some(EntryRef {
                repetition: 0,
                definition: 0,
                value: Some(value),
            }));
        }
        if self.advance()? {
            Ok(Some(self.entry()))
        } else {
            Ok(None)
        }
    }

    #[inline(always)]
    fn next_value(&mut self) -> Option<ValueRef<'_>> {
        match self.next_plain() {
            Some(value) => Some(self.lent(value)),
            None => None,
        }
    }

    fn one_list(&self) {
        one_page();
    }
}
