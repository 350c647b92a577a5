//! What a table is, as its root file `_metadata` describes it.
//!
//! `specs/Root.antt` says which description the bytes of a root give (`RootMeans`), `specs/Records.antt` which groups
//! and chunks it has, schema's `specs/Fronts.antt` what a file lacks that was written before a field was added,
//! `specs/Parts.antt` what a part file holds, and `specs/Table.antt` which table the files of a folder are (`TableOf`).
#![tactic(auto)]

mod block;
mod builder;
mod chunk_reading;
mod chunk_records;
mod description;
mod fitting;
mod fronts;
mod group;
mod group_reading;
mod group_writing;
mod handles;
mod keys_text;
mod laws;
mod pairs;
mod part_paths;
mod part_reading;
mod places;
mod reading;
mod rest;
mod stored;
mod version;
mod writing;

pub use block::Block;
pub use chunk_records::ChunkRecords;
pub use description::Manifest;
pub use group::Group;
pub use laws::{
    a_laid_out_root_means_its_table, a_root_means_one_table, a_table_by_letter_is_described,
    files_are_tables, groups_are_one, groups_as_written_are_groups, grown_parts_mean_rows,
    grown_roots_are_described, grown_tables_stand, known_of_parts_holds, parts_mean_their_rows,
    rows_of_parts_fit, tables_are_one, written_parts_hold_groups,
};
pub use version::{Edit, Version};
