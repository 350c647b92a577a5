//! The texts of the values of leaves: which leaves have them, and the text of each value.
//!
//! `specs/Forms.antt` says which leaves have texts. `specs/Texts.antt` and `specs/Reads.antt` say as functions what
//! the relations of `valuetext` say, and `specs/Laws.antt` that the two agree.
#![tactic(auto)]

mod decimal_bytes;
mod laws;
mod leaf_form;
mod number_reading;
mod number_texts;

pub use decimal_bytes::{form_bytes_read, form_bytes_text};
pub use laws::{
    bytes_read_back, dates_agree, decimals_agree, fixed_bytes_agree, forms_read_back,
    shortest_bytes_agree, times_agree, timestamps_agree,
};
pub use leaf_form::{Form, form_of};
pub use number_reading::form_read;
pub use number_texts::form_text;
