//! Data pages of parts that are there: their header, and the parts.

ghost use Rattle.std.specs.Prelude.{◌≡◌, ◌⊎◌, ◌<◌, ◌≤◌, ◌+◌, ◌++◌, ℕ, List, length, take, OnOk, OnErr, Err};
ghost use Rattle.bits.specs.Refusals.{RefusedOnly};
ghost use Rattle.bits.specs.Codec.{Appends};
ghost use Rattle.schema.specs.Views.{leaf_view};
ghost use Rattle.pages.specs.Greatest.{most_of_page};
ghost use Rattle.pages.specs.Headers.{data_header, body_of, IsHeaded};
ghost use Rattle.pages.specs.inner.Put.{AreParts, IsDataPage};

use crate::header_writing::{DataPageHead, SectionSizes, put_data_header};
use crate::section_writing::{put_section, size_before};
use bits::{R, Refusal};
use metadata::page_header_again;
use schema::Leaf;
use std::alloc::Global;

/// Writes a data page at the end: its header, the sections of levels that `parts` begins with, and the
/// rest of it, the values. Refused Limit only where the body has more bytes, or the page more entries, than
/// an i32 holds. After a refusal `out` is unchanged.
pub(crate) fn put_data_page(
    alloc: Global,
    leaf: &Leaf,
    head: DataPageHead,
    sections: SectionSizes,
    parts: &[u8],
    out: &mut Vec<u8>,
) -> R<()>
    requires nulls { head.nulls ≤ head.entries }
    requires rows { head.rows ≤ head.entries }
    requires sections { sections.repetitions + sections.definitions ≤ length parts.now }
    ensures stands { (r d text : List ℕ) → AreParts parts.now sections r d text
        → OnOk result (IsDataPage (leaf_view leaf.now) head r d text out.old.items out.new.items) }
    ensures limit { result ≡ Err Refusal.Limit → (most_of_page < 8 + length parts.now) ⊎ (most_of_page < head.entries) }
    ensures which { RefusedOnly (λ e. e ≡ Refusal.Limit) result }
    ensures unchanged { OnErr result (out.new.items ≡ out.old.items) }
{
    let kept = out.len();
    let done = put_parts(alloc, leaf, head, sections, parts, out);
    if done.is_err() {
        out.truncate(kept);
    }
    done
}

/// Writes the header and the parts; where it is refused, some of them may stand there.
fn put_parts(
    alloc: Global,
    leaf: &Leaf,
    head: DataPageHead,
    sections: SectionSizes,
    parts: &[u8],
    out: &mut Vec<u8>,
) -> R<()>
    requires nulls { head.nulls ≤ head.entries }
    requires rows { head.rows ≤ head.entries }
    requires sections { sections.repetitions + sections.definitions ≤ length parts.now }
    ensures stands { (r d text : List ℕ) → AreParts parts.now sections r d text
        → OnOk result (IsDataPage (leaf_view leaf.now) head r d text out.old.items out.new.items) }
    ensures limit { result ≡ Err Refusal.Limit → (most_of_page < 8 + length parts.now) ⊎ (most_of_page < head.entries) }
    ensures which { RefusedOnly (λ e. e ≡ Refusal.Limit) result }
    ensures front { OnErr result (take (length out.old.items) out.new.items ≡ out.old.items) }
{
    page_header_again();
    let before = size_before(head.version, leaf.greatest_repetition)
        + size_before(head.version, leaf.greatest_definition);
    let size = parts.len().saturating_add(before);
    put_data_header(alloc, head, size, sections, out)?;
    let (repetitions, others) = parts.split_at(sections.repetitions);
    let (definitions, values) = others.split_at(sections.definitions);
    put_section(head.version, leaf.greatest_repetition, repetitions, out)?;
    put_section(head.version, leaf.greatest_definition, definitions, out)?;
    out.extend_from_slice(values)?;
    Ok(())
}
