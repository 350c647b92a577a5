//! The numbers of the physical types and of the repetitions, as `parquet.thrift` has them.

/// The numbers of the physical types: `parquet.thrift`, Type.
pub mod types {
    pub const BOOLEAN: i32 = 0;

    pub const INT32: i32 = 1;

    pub const INT64: i32 = 2;

    pub const INT96: i32 = 3;

    pub const FLOAT: i32 = 4;

    pub const DOUBLE: i32 = 5;

    pub const BYTE_ARRAY: i32 = 6;

    pub const FIXED_LEN_BYTE_ARRAY: i32 = 7;
}

/// The numbers of the repetitions: `parquet.thrift`, FieldRepetitionType.
pub mod repetitions {
    pub const REQUIRED: i32 = 0;

    pub const OPTIONAL: i32 = 1;

    pub const REPEATED: i32 = 2;
}
