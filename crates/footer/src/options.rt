//! How a file is written.

ghost use Rattle.std.specs.Prelude.{◌≡◌};
ghost use Rattle.footer.specs.Writing.{chunk_options};
ghost use Rattle.row_group.specs.declared.options.Style.TheVariants.{Plain};

use pages::PageVersion;
use row_group::{ChunkOptions, Style};

/// How a file is written.
#[derive(Debug, Clone, Copy, PartialEq, Eq)]
pub struct WriteOptions {
    /// How many rows a row group has, the last one fewer: 1 to 16,777,216.
    pub group_rows: u32,
    /// How many rows a page has, the last one of a group fewer: at least 1.
    pub page_rows: u32,
    /// Which header the data pages have: 1 or 2.
    pub page_version: u8,
    /// Which encodings the values are written in.
    pub style: Style,
}

impl WriteOptions {
    /// The options of a file for which none are given: 131,072 rows in a group, 20,000 in a page, pages of
    /// version 1, PLAIN.
    pub fn standard() -> WriteOptions
        ensures group_rows { result.group_rows ≡ 131072 }
        ensures page_rows { result.page_rows ≡ 20000 }
        ensures page_version { result.page_version ≡ 1 }
        ensures style { result.style ≡ Plain }
    {
        WriteOptions {
            group_rows: 131_072,
            page_rows: 20_000,
            page_version: 1,
            style: Style::Plain,
        }
    }

    /// How the chunks of a file with these options are written.
    pub(crate) fn of_chunks(&self) -> ChunkOptions
        ensures { result ≡ chunk_options self.now }
    {
        ChunkOptions {
            page_rows: self.page_rows,
            page_version: if self.page_version == 2 {
                PageVersion::V2
            } else {
                PageVersion::V1
            },
            style: self.style,
        }
    }
}
