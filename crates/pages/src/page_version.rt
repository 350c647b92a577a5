//! Versions of data pages.

/// The version of a data page (`parquet.thrift`, PageType): of DATA_PAGE, whose level sections follow their
/// lengths, or of DATA_PAGE_V2, whose header has the lengths.
#[derive(Debug, Clone, Copy, PartialEq, Eq)]
pub enum PageVersion {
    V1,
    V2,
}
