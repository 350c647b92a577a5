//! Why a call on a dataset is refused: what there is to say beside the refusal is looked for after it, in the bytes that were read
//! and in the table. It is a [`Reason`](places::Reason). Nothing here decides what is refused.
#![tactic(auto)]

mod column_text;
mod explaining;
mod import_reason;
mod key_reason;
mod line_notes;
mod part_reason;

pub use explaining::{
    append_reason, change_reason, filter_text_reason, no_text_reason, question_reason,
    schema_reason, script_reason, table_reason,
};
pub use import_reason::file_reason;
pub use key_reason::{gathered_reason, rows_reason};
pub use line_notes::{LineNotes, RowNotes};
pub use part_reason::is_of_bytes;
