//! The parts of the program `pqds`, as a library, so that its tests do not prove it a second time.
//!
//! [`work`] is all of the program, over two writers; `pqds` hands it the arguments. `specs/CommandLine.antt` and
//! `specs/Asked.antt` say which words ask for which call, `specs/Program.antt` and `specs/Words.antt` what a call does. The JSON
//! forms of rows and schemas are those of the crate `jsonrows`.
#![tactic(auto)]

mod arguments;
mod calls;
mod check;
mod command_line;
mod copy;
mod decode;
mod encode;
mod first_rows;
mod help;
mod host;
mod inspect;
mod parts;
mod paths;
mod putting;
mod refusal_line;
mod text_lines;
mod wrong;

pub use arguments::{Call, Request, request_of};
pub use calls::{Ending, ended, refuse, work};
pub use encode::Sources;
pub use host::{HostPaths, OUTPUT_BUFFER_BYTES, put_new, refusal_of, text_of};
pub use paths::{Paths, folder_of};
pub use reports::Terminals;
