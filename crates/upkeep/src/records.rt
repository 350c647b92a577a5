//! Whether two records of a chunk are the same.

ghost use Rattle.std.specs.Prelude.{◌≡◌, ◌↔◌, IsTrue, MatchOption, map, option_map};
ghost use Rattle.metadata.specs.Views.{chunk_meta_view, column_meta_view, statistics_view};

use metadata::{ChunkMeta, ColumnMeta, Statistics};

/// The index of the first chunk whose record is not the same as the other's; None where the records are the same.
pub(crate) fn first_other(own: &[ChunkMeta], told: &[ChunkMeta]) -> Option<usize>
    ensures { MatchOption result (map chunk_meta_view own.now ≡ map chunk_meta_view told.now)
        (λ _. map chunk_meta_view own.now ≡ map chunk_meta_view told.now → ⊥) }
{
    if own.len() != told.len() {
        return Some(own.len().min(told.len()));
    }
    for (i, chunk) in own.iter().enumerate() {
        if !same_chunk(chunk, &told[i]) {
            return Some(i);
        }
    }
    None
}

fn same_chunk(a: &ChunkMeta, b: &ChunkMeta) -> bool
    ensures { IsTrue result ↔ (chunk_meta_view a.now ≡ chunk_meta_view b.now) }
{
    same_bytes(&a.file_path, &b.file_path)
        && a.file_offset == b.file_offset
        && same_column(&a.meta_data, &b.meta_data)
}

fn same_column(a: &ColumnMeta, b: &ColumnMeta) -> bool
    ensures { IsTrue result ↔ (column_meta_view a.now ≡ column_meta_view b.now) }
{
    has_same_type(a, b)
        && has_same_sizes(a, b)
        && has_same_places(a, b)
        && same_numbers(&a.encodings, &b.encodings)
        && same_texts(a.path_in_schema.as_slice(), b.path_in_schema.as_slice())
        && same_statistics(&a.statistics, &b.statistics)
}

fn has_same_type(a: &ColumnMeta, b: &ColumnMeta) -> bool
    ensures { IsTrue result ↔ (a.now.kind ≡ b.now.kind) × (a.now.codec ≡ b.now.codec) × (a.now.num_values ≡ b.now.num_values) }
{
    a.kind == b.kind && a.codec == b.codec && a.num_values == b.num_values
}

fn has_same_sizes(a: &ColumnMeta, b: &ColumnMeta) -> bool
    ensures { IsTrue result ↔ (a.now.total_uncompressed_size ≡ b.now.total_uncompressed_size)
        × (a.now.total_compressed_size ≡ b.now.total_compressed_size) }
{
    a.total_uncompressed_size == b.total_uncompressed_size
        && a.total_compressed_size == b.total_compressed_size
}

fn has_same_places(a: &ColumnMeta, b: &ColumnMeta) -> bool
    ensures { IsTrue result ↔ (a.now.data_page_offset ≡ b.now.data_page_offset)
        × (a.now.dictionary_page_offset ≡ b.now.dictionary_page_offset) }
{
    a.data_page_offset == b.data_page_offset && a.dictionary_page_offset == b.dictionary_page_offset
}

fn same_statistics(a: &Option<Statistics>, b: &Option<Statistics>) -> bool
    ensures { IsTrue result ↔ (option_map statistics_view a.now ≡ option_map statistics_view b.now) }
{
    match (a, b) {
        (Some(a), Some(b)) => are_same_statistics(a, b),
        (None, None) => true,
        _ => false,
    }
}

fn are_same_statistics(a: &Statistics, b: &Statistics) -> bool
    ensures { IsTrue result ↔ (statistics_view a.now ≡ statistics_view b.now) }
{
    has_same_counts(a, b)
        && same_bytes(&a.max, &b.max)
        && same_bytes(&a.min, &b.min)
        && same_bytes(&a.max_value, &b.max_value)
        && same_bytes(&a.min_value, &b.min_value)
}

fn has_same_counts(a: &Statistics, b: &Statistics) -> bool
    ensures { IsTrue result ↔ (a.now.null_count ≡ b.now.null_count) × (a.now.distinct_count ≡ b.now.distinct_count)
        × (a.now.is_max_value_exact ≡ b.now.is_max_value_exact) × (a.now.is_min_value_exact ≡ b.now.is_min_value_exact) }
{
    a.null_count == b.null_count
        && a.distinct_count == b.distinct_count
        && a.is_max_value_exact == b.is_max_value_exact
        && a.is_min_value_exact == b.is_min_value_exact
}

fn same_bytes(a: &Option<Vec<u8>>, b: &Option<Vec<u8>>) -> bool
    ensures { IsTrue result ↔ (option_map (λ y. y.items) a.now ≡ option_map (λ y. y.items) b.now) }
{
    match (a, b) {
        (Some(a), Some(b)) => a == b,
        (None, None) => true,
        _ => false,
    }
}

fn same_numbers(a: &Option<Vec<i32>>, b: &Option<Vec<i32>>) -> bool
    ensures { IsTrue result ↔ (option_map (λ y. y.items) a.now ≡ option_map (λ y. y.items) b.now) }
{
    match (a, b) {
        (Some(a), Some(b)) => are_same_numbers(a.as_slice(), b.as_slice()),
        (None, None) => true,
        _ => false,
    }
}

fn are_same_numbers(a: &[i32], b: &[i32]) -> bool
    ensures { IsTrue result ↔ (a.now ≡ b.now) }
{
    if a.len() != b.len() {
        return false;
    }
    for (i, number) in a.iter().enumerate() {
        if !is_same_number(*number, b[i]) {
            return false;
        }
    }
    true
}

fn is_same_number(a: i32, b: i32) -> bool
    ensures { IsTrue result ↔ (a ≡ b) }
{
    a == b
}

fn same_texts(a: &[Vec<u8>], b: &[Vec<u8>]) -> bool
    ensures { IsTrue result ↔ (map (λ s. s.items) a.now ≡ map (λ s. s.items) b.now) }
{
    if a.len() != b.len() {
        return false;
    }
    for (i, text) in a.iter().enumerate() {
        if !is_same_text(text, &b[i]) {
            return false;
        }
    }
    true
}

fn is_same_text(a: &Vec<u8>, b: &Vec<u8>) -> bool
    ensures { IsTrue result ↔ (a.now.items ≡ b.now.items) }
{
    a == b
}
