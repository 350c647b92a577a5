//! The record of a chunk in a root, against its leaf.

ghost use Rattle.std.specs.Prelude.{◌≡◌, ◌≤◌, ◌<◌, ◌^◌, ◌↔◌, ℕ, pos, true, false, length, map, option_map, Option, Some, All, IfSome, IsTrue, IfOk, IfErr};
ghost use Rattle.bits.specs.Refusals.{RefusedOnly};
ghost use Rattle.bits.specs.declared.refusal.Refusal.TheVariants.{Memory, Page};
ghost use Rattle.schema.specs.Values.{ValueTree, view};
ghost use Rattle.schema.specs.Views.{leaf_view};
ghost use Rattle.metadata.specs.Views.{statistics_view, column_meta_view, chunk_meta_view};
ghost use Rattle.metadata.specs.Weight.{IsOwnColumn, AreOwnStatistics};
ghost use Rattle.footer.specs.Greatest.{most_of_file};
ghost use Rattle.statistics.specs.Bounds.{Statistics as StatisticsView, statistics_of};
ghost use Rattle.statistics.specs.Bytes.{IsBoundAt};
ghost use Rattle.manifest.specs.Records.{IsChunkRecord};
ghost use Rattle.manifest.specs.KeptChunks.{unplaced};
ghost use Rattle.manifest.specs.inner.Reading.{IsChunkFault, AreGiven, HasShortBounds, HasLongValues};

use bits::{R, Refusal};
use footer::MOST_BYTES_OF_FILE;
use metadata::{ChunkMeta, ColumnMeta, Statistics};
use row_group::{check_record, start_of};
use schema::{Kind, Leaf};
use statistics::{MOST_BYTES_OF_BOUND, Stats};
use std::alloc::Global;

/// The most encodings of a chunk.
const MOST_ENCODINGS: usize = 10;

/// The most names on a path.
const MOST_NAMES: usize = 32;

/// The most bytes of a name.
pub(crate) const MOST_BYTES_OF_NAME: usize = 4_294_967_295;

/// The statistics that the record of a chunk in a root says, whatever file it names.
///
/// Refused Schema where it is no chunk of this leaf; Codec where it is compressed; Limit for too many entries; Page for
/// sizes, offsets and statistics that cannot be.
pub(crate) fn statistics_in(alloc: Global, chunk: &ChunkMeta, leaf: &Leaf) -> R<Stats>
    ensures stands { IfOk result (λ s. IsChunkRecord (leaf_view leaf.now) (unplaced (chunk_meta_view chunk.now)) (statistics_of s)) }
    ensures only { IfErr result (λ e. (e ≡ Memory → ⊥) → (s : StatisticsView) → IsChunkRecord (leaf_view leaf.now) (unplaced (chunk_meta_view chunk.now)) s → ⊥) }
    ensures which { IfErr result (IsChunkFault (column_meta_view chunk.now.meta_data)) }
{
    let meta = &chunk.meta_data;
    let _count = check_record(meta, leaf)?;
    let _start = start_of(meta)?;
    if !is_size(meta.total_compressed_size) || !is_own_column(meta) {
        return Err(Refusal::Page);
    }
    let Some(given) = &meta.statistics else {
        return Err(Refusal::Page);
    };
    let stats = stats_of(alloc, leaf.leaf_type.kind, given)?;
    Ok(stats)
}

/// Whether a number of bytes is there that a file can have.
fn is_size(number: Option<i64>) -> bool
    ensures yes { result ≡ true → (n : ℕ) × (number ≡ Some (pos n)) × (n ≤ most_of_file) }
    ensures no { result ≡ false → (n : ℕ) → number ≡ Some (pos n) → n ≤ most_of_file → ⊥ }
{
    match number {
        Some(number) => number >= 0 && number <= MOST_BYTES_OF_FILE as i64,
        None => false,
    }
}

/// Whether the record takes no more room in a footer than one of the store's own.
fn is_own_column(meta: &ColumnMeta) -> bool
    ensures { IsTrue result ↔ IsOwnColumn (column_meta_view meta.now) }
{
    are_few(&meta.encodings)
        && meta.path_in_schema.len() <= MOST_NAMES
        && are_short(meta.path_in_schema.as_slice())
        && are_own_statistics(&meta.statistics)
}

fn are_few(encodings: &Option<Vec<i32>>) -> bool
    ensures { IsTrue result ↔ IfSome (option_map (λ s. s.items) encodings.now) (λ s. length s ≤ 10) }
{
    match encodings {
        Some(encodings) => encodings.len() <= MOST_ENCODINGS,
        None => true,
    }
}

fn are_short(names: &[Vec<u8>]) -> bool
    ensures { IsTrue result ↔ All (λ name. length name < 2 ^ 32) (map (λ s. s.items) names.now) }
{
    for name in names {
        if name.len() > MOST_BYTES_OF_NAME {
            return false;
        }
    }
    true
}

fn are_own_statistics(statistics: &Option<Statistics>) -> bool
    ensures { IsTrue result ↔ IfSome (option_map statistics_view statistics.now) AreOwnStatistics }
{
    match statistics {
        Some(given) => {
            given.max.is_none()
                && given.min.is_none()
                && is_short(&given.max_value)
                && is_short(&given.min_value)
        }
        None => true,
    }
}

fn is_short(bound: &Option<Vec<u8>>) -> bool
    ensures { IsTrue result ↔ IfSome (option_map (λ s. s.items) bound.now) (λ s. length s ≤ 64) }
{
    match bound {
        Some(bound) => bound.len() <= MOST_BYTES_OF_BOUND,
        None => true,
    }
}

/// The statistics that a record says of a chunk of this type. Refused Page exactly when it says none, out of memory
/// aside: the nulls are not counted, or a bound is no value of the type.
fn stats_of(alloc: Global, kind: Kind, given: &Statistics) -> R<Stats>
    requires { HasShortBounds (statistics_view given.now) }
    ensures stands { IfOk result (λ s. AreGiven kind (statistics_view given.now) (statistics_of s)) }
    ensures only { IfErr result (λ e. (e ≡ Memory → ⊥) → (s : StatisticsView) → AreGiven kind (statistics_view given.now) s → ⊥) }
    ensures which { RefusedOnly (λ e. e ≡ Refusal.Page) result }
{
    let Some(nulls) = given.null_count else {
        return Err(Refusal::Page);
    };
    if nulls < 0 {
        return Err(Refusal::Page);
    }
    let min = text_of(&given.min_value);
    let max = text_of(&given.max_value);
    let stats = bounds_of(alloc, kind, min, max, nulls as u64)?;
    Ok(stats)
}

fn text_of(text: &Option<Vec<u8>>) -> Option<&[u8]>
    ensures { option_map (λ s. s.now) result ≡ option_map (λ s. s.items) text.now }
{
    match text {
        Some(text) => Some(text.as_slice()),
        None => None,
    }
}

/// The bounds of these bytes, each of at most 64. Refused Page exactly when some of the bytes are no value of the type,
/// out of memory aside.
fn bounds_of(
    alloc: Global,
    kind: Kind,
    min: Option<&[u8]>,
    max: Option<&[u8]>,
    nulls: u64,
) -> R<Stats>
    requires min_short { IfSome (option_map (λ x. x.now) min) (λ s. length s ≤ 64) }
    requires max_short { IfSome (option_map (λ x. x.now) max) (λ s. length s ≤ 64) }
    ensures min { IfOk result (λ s. IsBoundAt kind (option_map (λ x. x.now) min.entry) (option_map view s.min)) }
    ensures max { IfOk result (λ s. IsBoundAt kind (option_map (λ x. x.now) max.entry) (option_map view s.max)) }
    ensures nulls { IfOk result (λ s. s.nulls ≡ nulls) }
    ensures only { IfErr result (λ e. (e ≡ Memory → ⊥) → (a b : Option ValueTree) → IsBoundAt kind (option_map (λ x. x.now) min.entry) a
        → IsBoundAt kind (option_map (λ x. x.now) max.entry) b → ⊥) }
    ensures which { RefusedOnly (λ e. e ≡ Refusal.Page) result }
{
    if is_long(kind) {
        return no_bounds(kind, min, max, nulls);
    }
    match Stats::from_bytes(alloc, kind, min, max, nulls) {
        Ok(stats) => Ok(stats),
        Err(refusal) => Err(as_page(refusal)),
    }
}

/// The statistics, without bounds, of a chunk whose values are longer than a bound may be. Refused Page where a bound
/// is given.
fn no_bounds(kind: Kind, min: Option<&[u8]>, max: Option<&[u8]>, nulls: u64) -> R<Stats>
    requires long { HasLongValues kind }
    requires min_short { IfSome (option_map (λ x. x.now) min) (λ s. length s ≤ 64) }
    requires max_short { IfSome (option_map (λ x. x.now) max) (λ s. length s ≤ 64) }
    ensures min { IfOk result (λ s. IsBoundAt kind (option_map (λ x. x.now) min.entry) (option_map view s.min)) }
    ensures max { IfOk result (λ s. IsBoundAt kind (option_map (λ x. x.now) max.entry) (option_map view s.max)) }
    ensures nulls { IfOk result (λ s. s.nulls ≡ nulls) }
    ensures only { IfErr result (λ e. (a b : Option ValueTree) → IsBoundAt kind (option_map (λ x. x.now) min.entry) a
        → IsBoundAt kind (option_map (λ x. x.now) max.entry) b → ⊥) }
    ensures which { IfErr result (λ e. e ≡ Refusal.Page) }
{
    if min.is_some() {
        return Err(Refusal::Page);
    }
    if max.is_some() {
        return Err(Refusal::Page);
    }
    Ok(Stats {
        min: None,
        max: None,
        nulls,
    })
}

/// Page, but for Memory.
fn as_page(refusal: Refusal) -> Refusal
    ensures memory { refusal ≡ Memory → result ≡ Memory }
    ensures page { (refusal ≡ Memory → ⊥) → result ≡ Page }
{
    match refusal {
        Refusal::Memory => Refusal::Memory,
        _ => Refusal::Page,
    }
}

/// Whether values of the type have more bytes than a bound may have.
fn is_long(kind: Kind) -> bool
    ensures { IsTrue result ↔ HasLongValues kind }
{
    match kind {
        Kind::FixedLenByteArray(length) => length > 64,
        _ => false,
    }
}
