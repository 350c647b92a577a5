//! Keys, the folders that they name, and rows split by their keys (fastparquet, the "hive" scheme).
//!
//! `specs/Folders.antt` says which path a key has and which keys can partition; `specs/Order.antt` the order of keys in
//! a table; `specs/Nesting.antt` how its folders nest; `specs/Splitting.antt` the rows of each key.
#![tactic(auto)]

mod checks;
mod columns;
mod escape;
mod laws;
mod order;
mod parts;
mod paths;
mod splitting;

pub use checks::{can_partition, row_can_partition};
pub use columns::key_columns;
pub use laws::{
    fewer_columns_can_partition, folders_nest, part_names_are_plain, part_paths_are_not_roots,
    part_paths_name_parts, paths_name_keys, schema_keys_can_partition,
};
pub use order::{compare_keys, same_keys};
pub use parts::{part_name, part_number, part_path, read_unsigned};
pub use paths::{key_of, path_of};
pub use splitting::{KeyRows, split_by_key, without_keys};
