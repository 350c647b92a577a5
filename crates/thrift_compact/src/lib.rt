//! Structs of the Thrift compact protocol as trees.
//!
//! `specs/Compact.antt` says which bytes stand for which tree; `specs/View.antt` sees a [`Tree`] as
//! the tree of `specs/Tree.antt`.
#![tactic(auto)]

mod copying;
mod heads;
mod laws;
mod numbers;
mod passing;
mod piecewise;
mod reading;
mod sameness;
mod taking;
mod tree;
mod unread;
mod writable;
mod writing;

pub use copying::copied_fields;
pub use laws::{
    no_spelling_is_shorter, one_struct, one_value, structs_are_written_in_pieces,
    structs_of_the_shape_nest, structs_with_bytes_have_the_shape, what_follows_changes_nothing,
    what_is_written_is_read_again,
};
pub use piecewise::{put_end, put_list_start, put_next_fields, put_rest};
pub use reading::read_struct;
pub use taking::{TakesElements, TakesFields};
pub use tree::{ElementType, Field, Node, Tree};
pub use unread::Unread;
pub use writable::has_bytes;
pub use writing::write_struct;
