//! What is said of a file: plain values, which are printed as text or as JSON.

use serde::Serialize;
use serde_json::Value as Json;

/// What a file is, by its footer and its page headers.
#[derive(Debug, Drop, Serialize)]
pub struct FileReport {
    pub bytes: usize,
    pub footer_bytes: usize,
    pub version: Option<i32>,
    pub rows: Option<i64>,
    pub created_by: Option<String>,
    pub key_values: Vec<KeyValueReport>,
    pub schema: Vec<FieldReport>,
    pub groups: Vec<GroupReport>,
    /// What `decode` refuses, as far as the footer and the page headers raise a suspicion.
    pub not_read: Vec<Problem>,
}

/// A key of the footer, with its value.
#[derive(Debug, Drop, Serialize)]
pub struct KeyValueReport {
    pub key: String,
    pub value: Option<String>,
}

/// An element of the schema's list.
#[derive(Debug, Drop, Serialize)]
pub struct FieldReport {
    /// How many groups are around it; 0 for the root's own fields.
    pub depth: usize,
    pub name: String,
    pub repetition: Option<String>,
    #[serde(rename = "type")]
    pub kind: Option<String>,
    pub length: Option<i32>,
    pub children: Option<i32>,
    pub annotation: Option<String>,
    pub precision: Option<i32>,
    pub scale: Option<i32>,
    pub logical_type: Option<String>,
}

/// A row group.
#[derive(Debug, Drop, Serialize)]
pub struct GroupReport {
    pub rows: i64,
    pub bytes: Option<i64>,
    pub chunks: Vec<ChunkReport>,
}

/// A column chunk.
#[derive(Debug, Drop, Serialize)]
pub struct ChunkReport {
    pub column: String,
    #[serde(rename = "type")]
    pub kind: String,
    pub codec: String,
    pub encodings: Vec<String>,
    pub entries: i64,
    pub compressed_bytes: Option<i64>,
    pub uncompressed_bytes: Option<i64>,
    pub data_page_offset: i64,
    pub dictionary_page_offset: Option<i64>,
    /// The file that the chunk is in, where it is another one.
    pub file: Option<String>,
    pub statistics: Option<StatisticsReport>,
    pub pages: Vec<PageReport>,
    /// Why not all pages of the chunk are listed, where they are not.
    pub unlisted: Option<&'static str>,
}

/// The statistics of a chunk.
#[derive(Debug, Drop, Serialize)]
pub struct StatisticsReport {
    pub nulls: Option<i64>,
    pub distinct: Option<i64>,
    pub min: Option<Json>,
    pub max: Option<Json>,
}

/// A page, by its header.
#[derive(Debug, Drop, Serialize)]
pub struct PageReport {
    pub offset: usize,
    pub kind: String,
    pub encoding: Option<String>,
    pub entries: Option<i32>,
    pub nulls: Option<i32>,
    pub header_bytes: usize,
    pub bytes: i32,
}

/// What `decode` refuses, and where.
#[derive(Debug, Drop, Serialize)]
pub struct Problem {
    pub column: Option<String>,
    pub group: Option<usize>,
    pub what: String,
}
