//! Values of rows, the schema tree over them, and the orders of leaves.
//!
//! `specs/Values.antt` sees a [`Value`] as a tree, `specs/Borrowed.antt` a borrowed one, and
//! `specs/Views.antt` all else; `specs/Annotations.antt`
//! has the annotations and which order they give, `specs/Fits.antt` what fits a schema,
//! `specs/Stripe.antt` the columns of rows, `specs/Law.antt` what a schema is, `specs/Keys.antt` what key
//! columns are, and a row with and without its key, `specs/Fronts.antt` what a file lacks that was written before a
//! field was added, `specs/Growing.antt` how one is added.
#![tactic(auto)]

mod annotation;
mod ascii_text;
mod borrowed;
mod building;
mod cutting;
mod cutting_laws;
mod element;
mod field;
mod fits;
mod fronts;
mod fronts_laws;
mod growing;
mod key;
mod key_checks;
mod key_elements;
mod key_laws;
mod keyed;
mod laws;
mod leaves;
mod listing;
mod listing_laws;
mod numbers;
mod order;
mod reading;
mod row;
mod schema;
mod value;
mod value_checks;

pub use annotation::{Annotation, ConvertedType, GroupAnnotation, LeafType};
pub use borrowed::{EntryRef, ValueRef};
pub use cutting_laws::{a_cut_has_the_wanted_leaves, cut_rows_are_of_wanted_leaves};
pub use element::{Element, copied_elements};
pub use field::{Field, Leaf, Step};
pub use fits::fits_row;
pub use fronts_laws::{
    columns_are_one, fronts_have_the_first_leaves, fronts_of_fronts, fronts_stay, grown_rows_fit,
    grown_schemas_have_fronts, keys_stay, leaves_tell_fronts, padded_rows_fit,
    padded_rows_have_columns, padding_composes, whole_rows_are_padded,
};
pub use key::{Key, KeyColumn, KeyKind};
pub use key_checks::{MOST_KEY_COLUMNS, has_place};
pub use key_laws::{a_row_is_its_key_and_the_rest, rows_without_keys_fit};
pub use laws::{
    annotations_are_kept, at_most_laws, columns_determine_rows, entries_are_of_leaves,
    levels_are_of_steps, orders_are_total, rows_begin_once, unsigned_order_is_of_bits,
    worked_examples,
};
pub use leaves::count_leaves;
pub use listing_laws::{
    a_list_means_one_schema, a_schema_is_its_elements, kept_structs_have_bytes,
};
pub use order::{Order, compare, compare_by, compare_refs};
pub use row::{Column, Entry, Row};
pub use schema::Schema;
pub use value::{Kind, Repetition, Value, copied_values, same};
pub use value_checks::{is_of_kind, is_text, is_utf8};
