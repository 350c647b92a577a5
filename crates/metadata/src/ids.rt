//! The ids of the fields of each struct, as `parquet.thrift` has them. The readers and the writers take
//! them from here; the definitions have a table of their own, `specs/Ids.antt`, which they are compared
//! with.

/// The ids of FileMetaData's fields.
pub mod file {
    pub const VERSION: i16 = 1;

    pub const SCHEMA: i16 = 2;

    pub const NUM_ROWS: i16 = 3;

    pub const ROW_GROUPS: i16 = 4;

    pub const KEY_VALUE_METADATA: i16 = 5;

    pub const CREATED_BY: i16 = 6;

    pub const COLUMN_ORDERS: i16 = 7;
}

/// The ids of KeyValue's fields.
pub mod pair {
    pub const KEY: i16 = 1;

    pub const VALUE: i16 = 2;
}

/// The ids of RowGroup's fields.
pub mod group {
    pub const COLUMNS: i16 = 1;

    pub const TOTAL_BYTE_SIZE: i16 = 2;

    pub const NUM_ROWS: i16 = 3;
}

/// The ids of ColumnChunk's fields.
pub mod chunk {
    pub const FILE_PATH: i16 = 1;

    pub const FILE_OFFSET: i16 = 2;

    pub const META_DATA: i16 = 3;
}

/// The ids of ColumnMetaData's fields.
pub mod column {
    pub const KIND: i16 = 1;

    pub const ENCODINGS: i16 = 2;

    pub const PATH_IN_SCHEMA: i16 = 3;

    pub const CODEC: i16 = 4;

    pub const NUM_VALUES: i16 = 5;

    pub const TOTAL_UNCOMPRESSED_SIZE: i16 = 6;

    pub const TOTAL_COMPRESSED_SIZE: i16 = 7;

    pub const DATA_PAGE_OFFSET: i16 = 9;

    pub const DICTIONARY_PAGE_OFFSET: i16 = 11;

    pub const STATISTICS: i16 = 12;
}

/// The ids of SchemaElement's fields.
pub mod element {
    pub const KIND: i16 = 1;

    pub const TYPE_LENGTH: i16 = 2;

    pub const REPETITION_TYPE: i16 = 3;

    pub const NAME: i16 = 4;

    pub const NUM_CHILDREN: i16 = 5;

    pub const CONVERTED_TYPE: i16 = 6;

    pub const SCALE: i16 = 7;

    pub const PRECISION: i16 = 8;

    pub const FIELD_ID: i16 = 9;

    pub const LOGICAL_TYPE: i16 = 10;
}

/// The ids of Statistics' fields.
pub mod statistics {
    pub const MAX: i16 = 1;

    pub const MIN: i16 = 2;

    pub const NULL_COUNT: i16 = 3;

    pub const DISTINCT_COUNT: i16 = 4;

    pub const MAX_VALUE: i16 = 5;

    pub const MIN_VALUE: i16 = 6;

    pub const IS_MAX_VALUE_EXACT: i16 = 7;

    pub const IS_MIN_VALUE_EXACT: i16 = 8;
}

/// The ids of the members of the union ColumnOrder.
pub mod order {
    pub const TYPE_ORDER: i16 = 1;
}

/// The ids of PageHeader's fields.
pub mod page {
    pub const KIND: i16 = 1;

    pub const UNCOMPRESSED_PAGE_SIZE: i16 = 2;

    pub const COMPRESSED_PAGE_SIZE: i16 = 3;

    pub const CRC: i16 = 4;

    pub const DATA_PAGE_HEADER: i16 = 5;

    pub const DICTIONARY_PAGE_HEADER: i16 = 7;

    pub const DATA_PAGE_HEADER_V2: i16 = 8;
}

/// The ids of DataPageHeader's fields.
pub mod data {
    pub const NUM_VALUES: i16 = 1;

    pub const ENCODING: i16 = 2;

    pub const DEFINITION_LEVEL_ENCODING: i16 = 3;

    pub const REPETITION_LEVEL_ENCODING: i16 = 4;

    pub const STATISTICS: i16 = 5;
}

/// The ids of DictionaryPageHeader's fields.
pub mod dictionary {
    pub const NUM_VALUES: i16 = 1;

    pub const ENCODING: i16 = 2;

    pub const IS_SORTED: i16 = 3;
}

/// The ids of DataPageHeaderV2's fields.
pub mod data_v2 {
    pub const NUM_VALUES: i16 = 1;

    pub const NUM_NULLS: i16 = 2;

    pub const NUM_ROWS: i16 = 3;

    pub const ENCODING: i16 = 4;

    pub const DEFINITION_LEVELS_BYTE_LENGTH: i16 = 5;

    pub const REPETITION_LEVELS_BYTE_LENGTH: i16 = 6;

    pub const IS_COMPRESSED: i16 = 7;

    pub const STATISTICS: i16 = 8;
}
