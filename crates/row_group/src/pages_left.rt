//! What is left of a chunk's pages.

ghost use Rattle.std.specs.Prelude.{◌≡◌, ◌<◌, ◌≤◌, true, length, IfOk, OnOk, Err};
ghost use Rattle.bits.specs.Codec.{NothingStands};
ghost use Rattle.bits.specs.Faults.{refusal_of};
ghost use Rattle.bits.specs.Refusals.{HasCause, OnFault, RefusedOnly};
ghost use Rattle.schema.specs.Views.{leaf_view};
ghost use Rattle.pages.specs.Apart.{IsOnlyPage, IsPageOfAtMost};
ghost use Rattle.pages.specs.Chunk.{entries_of};
ghost use Rattle.pages.specs.Limits.{IsOfPages, IsPageOver};
ghost use Rattle.pages.specs.Page.{IsPage};
ghost use Rattle.pages.specs.Views.{dictionary_view, page_view};
ghost use Rattle.row_group.specs.Rest.{dictionary_of, all_pages};
ghost use Rattle.row_group.specs.Left.{known_view, pages_view};
ghost use Rattle.row_group.specs.inner.Pages.{AcceptedWhere, GivesEntries, NextPage, ReadsPage, TakesPage};

use bits::{Fault, R, Refusal};
use pages::{DataPage, PageRef, pages_of_a_dictionary, read_page, read_page_again};
use schema::{Leaf, ValueRef};
use std::alloc::Global;

/// What the pages that were read say of the chunk's dictionary.
#[derive(Debug, Drop)]
pub enum Dictionary<'a> {
    /// All pages that were read were skipped: the next page may be a dictionary.
    Open,
    /// A page with entries came first: there is no dictionary.
    Absent,
    /// The values of the dictionary's page.
    Present(Vec<ValueRef<'a>>),
}

impl<'a> Dictionary<'a> {
    /// The values, where there is a dictionary.
    fn values(&self) -> Option<&[ValueRef<'a>]>
        ensures { dictionary_view result ≡ dictionary_of (known_view self.now) }
    {
        match self {
            Dictionary::Present(values) => Some(values.as_slice()),
            _ => None,
        }
    }
}

/// The pages of a chunk that are not read yet.
#[derive(Debug, Drop)]
pub struct PagesLeft<'a> {
    pub(crate) alloc: Global,
    pub(crate) leaf: &'a Leaf,
    pub(crate) dictionary: Dictionary<'a>,
    /// The bytes after the pages that were read.
    pub(crate) bytes: &'a [u8],
    /// How many entries the pages that were read lack.
    pub(crate) lacking: usize,
}

/// The refusal of a page, which owns no memory.
fn fault_of(refusal: &Refusal) -> Fault
    requires { HasCause IsOfPages refusal.now }
    ensures { refusal_of result ≡ refusal.now }
{
    match refusal {
        Refusal::Truncated => Fault::Truncated,
        Refusal::Thrift => Fault::Thrift,
        Refusal::Encoding => Fault::Encoding,
        Refusal::Page => Fault::Page,
        Refusal::Levels => Fault::Levels,
        Refusal::Value => Fault::Value,
        Refusal::Utf8 => Fault::Utf8,
        Refusal::Limit => Fault::Limit,
        _ => Fault::Memory,
    }
}

/// The page, or none where it has no entries.
fn with_entries(page: DataPage<'_>) -> Option<DataPage<'_>>
    ensures { GivesEntries page.entry result }
{
    if page.len() == 0 { None } else { Some(page) }
}

/// The page at the front of the bytes, as [`read_page`] gives it. Where one is known to stand there, since
/// it was accepted, it is read without a second check ([`read_page_again`]).
fn page_at<'a>(
    alloc: Global,
    bytes: &'a [u8],
    leaf: &Leaf,
    dictionary: Option<&[ValueRef<'a>]>,
    left: usize,
    is_accepted: bool,
) -> R<(PageRef<'a>, usize)>
    requires stood { let d = dictionary_view dictionary in is_accepted ≡ true → NothingStands (IsPageOfAtMost left (leaf_view leaf.now) d bytes.now) → ⊥ }
    requires known_within_limits { is_accepted ≡ true → IsPageOver (leaf_view leaf.now) bytes.now → ⊥ }
    ensures stands { let d = dictionary_view dictionary.entry in IfOk result (λ x. IsPage (leaf_view leaf.now) d bytes.now (page_view x.0) x.1) }
    ensures alone { let d = dictionary_view dictionary.entry in IfOk result (λ x. IsOnlyPage (leaf_view leaf.now) d bytes.now (page_view x.0) x.1) }
    ensures within { IfOk result (λ x. x.1 ≤ length bytes.now) }
    ensures at_most_left { IfOk result (λ x. length (entries_of (page_view x.0)) ≤ left) }
    ensures within_limits { OnOk result (IsPageOver (leaf_view leaf.now) bytes.now → ⊥) }
    ensures only { let d = dictionary_view dictionary.entry in OnFault result (NothingStands (IsPageOfAtMost left (leaf_view leaf.now) d bytes.now)) }
    ensures limit { result ≡ Err Refusal.Limit → IsPageOver (leaf_view leaf.now) bytes.now }
    ensures which { RefusedOnly IsOfPages result }
{
    if is_accepted {
        read_page_again(alloc, bytes, leaf, dictionary, left)
    } else {
        read_page(alloc, bytes, leaf, dictionary, left)
    }
}

impl<'a> PagesLeft<'a> {
    /// All pages of a chunk of this many entries, which begin where `bytes` does.
    pub fn new(alloc: Global, bytes: &'a [u8], leaf: &'a Leaf, count: usize) -> PagesLeft<'a>
        ensures { pages_view result ≡ all_pages (leaf_view leaf.now) bytes.now count }
    {
        PagesLeft {
            alloc,
            leaf,
            dictionary: Dictionary::Open,
            bytes,
            lacking: count,
        }
    }

    /// The next page with entries, or none where no entries are lacking. Skipped pages, pages without
    /// entries and the dictionary are passed.
    ///
    /// Refused Page for a dictionary that is not the first page, skipped ones aside; otherwise as the
    /// pages are. After a refusal other than Memory nothing is promised of what is left.
    ///
    /// Pages that were accepted are read without a second check.
    pub fn next_page(&mut self, is_accepted: bool) -> Result<Option<DataPage<'a>>, Fault>
        requires accepted { AcceptedWhere is_accepted (pages_view self.old) }
        ensures { NextPage (pages_view self.old) (pages_view self.new) result }
    {
        'pages: for _ in 0..u64::MAX {
            if self.lacking == 0 {
                return Ok(None);
            }
            if let Some(page) = self.read_page(is_accepted)? {
                return Ok(Some(page));
            }
        }
        // Never reached: no chunk has as many pages.
        Err(Fault::Memory)
    }

    /// Reads one page: its entries, or none where it has no entries.
    fn read_page(&mut self, is_accepted: bool) -> Result<Option<DataPage<'a>>, Fault>
        requires lacking { 0 < self.old.lacking }
        requires accepted { AcceptedWhere is_accepted (pages_view self.old) }
        ensures { ReadsPage (pages_view self.old) (pages_view self.new) result }
    {
        pages_of_a_dictionary();
        let dictionary = self.dictionary.values();
        let (bytes, lacking) = (self.bytes, self.lacking);
        match page_at(
            self.alloc,
            bytes,
            self.leaf,
            dictionary,
            lacking,
            is_accepted,
        ) {
            Err(refusal) => Err(fault_of(&refusal)),
            Ok((page, used)) => {
                self.bytes = self.bytes.split_at(used).1;
                self.take(page)
            }
        }
    }

    /// Takes a page that was read: its entries, or none where it has no entries. Refused Page where it
    /// is a dictionary that may not come.
    fn take(&mut self, page: PageRef<'a>) -> Result<Option<DataPage<'a>>, Fault>
        requires { length (entries_of (page_view page)) ≤ self.old.lacking }
        ensures { TakesPage (pages_view self.old) (pages_view self.new) (page_view page.entry) result }
    {
        match page {
            PageRef::Skipped(_) => Ok(None),
            PageRef::Dictionary(values) => {
                let Dictionary::Open = self.dictionary else {
                    return Err(Fault::Page);
                };
                self.dictionary = Dictionary::Present(values);
                Ok(None)
            }
            PageRef::Data(page) => {
                if let Dictionary::Open = self.dictionary {
                    self.dictionary = Dictionary::Absent;
                }
                self.lacking -= page.len();
                Ok(with_entries(page))
            }
        }
    }
}
