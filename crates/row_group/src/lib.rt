//! Chunks and row groups (`parquet.thrift`, ColumnChunk and RowGroup).
//!
//! `specs/Chunks.antt` says which entries a chunk holds (`ChunkMeans`) and which rows a group
//! (`GroupMeans`), `specs/Wanted.antt` which rows it has at some of its leaves, `specs/Rest.antt` and
//! `specs/Left.antt` what readers of them still have to give, `specs/Limits.antt` what is beyond a limit.
//! `specs/Writing.antt` says what a writer leaves, `specs/Styles.antt` which encodings it writes,
//! `specs/Paged.antt` how it cuts entries into pages, and `specs/Spelled.antt` how these are written.
//! `specs/Laws.antt` says that they hold one column, and one list of rows.
#![tactic(auto)]

mod buffer_writing;
mod chunk_pages;
mod chunk_reader;
mod chunk_reading;
mod chunk_record;
mod chunk_statistics;
mod chunk_styles;
mod chunk_writing;
mod counts;
mod group_chunks;
mod group_reading;
mod group_writing;
mod laws;
mod limits;
mod options;
mod pages_in_turn;
mod pages_left;
mod rows;
mod wanted_chunks;

pub use buffer_writing::write_buffered_group;
pub use chunk_reader::ChunkReader;
pub use chunk_reading::{check_chunk, read_chunk};
pub use chunk_record::check_record;
pub use chunk_writing::write_chunk;
pub use counts::{count_of, natural};
pub use group_chunks::start_of;
pub use group_reading::read_group;
pub use group_writing::write_group;
pub use laws::{
    an_appended_group_has_its_rows, an_appended_group_is_within_limits, cut_groups_have_cut_rows,
    one_meaning,
};
pub use limits::{MOST_BYTES_BEFORE_CHUNK, MOST_ENTRIES_OF_CHUNK, MOST_ROWS_OF_GROUP};
pub use options::{ChunkOptions, Style};
pub use rows::{Rows, check_group};
