//! The commands on a dataset as words: what they are called, what is asked for by their arguments, and their help.
//!
//! `commands` makes the calls. This crate does not know the store, so that the program's other commands are not proved
//! again with it.
#![tactic(auto)]

mod call;
mod commands;
mod datasets;
mod file_sink;
mod help;
mod inputs;
mod options;
mod words;

pub use call::{Call, Change, Look, Question, Task};
pub use commands::{
    limit_option, min_rows_option, out_option, quiet_flag, text_flag, with_commands, with_help,
    with_waiting,
};
pub use datasets::Datasets;
pub use file_sink::FileSink;
pub use inputs::reads_input_twice;
pub use options::{Styles, options_in, with_options};
pub use words::{
    call_in, found_for, limit_in, look_call, min_rows_in, out_in, quiet_in, texts_in, words_in,
};
