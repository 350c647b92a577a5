//! Why something is refused.

use crate::filter_faults::FilterFault;
use crate::limit_fault::LimitFault;
use crate::system_words::{SystemFault, system_fault};
use crate::text_fault::TextFault;
use bits::R;
use std::alloc::Global;
use std::fmt::{self, Display, Formatter};
use std::io::{self, ErrorKind};

/// Why something is refused, as a line of text.
#[derive(Debug, Drop)]
pub enum Cause {
    /// A text has a fault: rows, a script or a schema.
    Text(TextFault),
    /// A filter has a fault.
    Filter(FilterFault),
    /// The system refused something.
    System(SystemFault),
    /// A limit is exceeded.
    Limit(LimitFault),
    /// A line that says all.
    Said(String),
    /// The reader of the output closed it.
    ClosedPipe,
    /// The output could not be written. The system's words are not known.
    Output,
}

impl Display for Cause {
    fn fmt<W: fmt::Write>(&self, f: &mut Formatter<W>) -> fmt::Result {
        match self {
            Cause::Text(fault) => write!(f, "{fault}"),
            Cause::Filter(fault) => write!(f, "{fault}"),
            Cause::System(fault) => write!(f, "{fault}"),
            Cause::Limit(fault) => write!(f, "{fault}"),
            Cause::Said(line) => f.write_str(line.as_str()),
            Cause::ClosedPipe => f.write_str("the reader closed the pipe"),
            Cause::Output => f.write_str("standard output could not be written"),
        }
    }
}

/// Why the output could not be written.
pub fn output_cause(alloc: Global, error: io::Error) -> R<Cause> {
    match error.kind() {
        ErrorKind::BrokenPipe => Ok(Cause::ClosedPipe),
        _ => Ok(Cause::System(system_fault(alloc, "standard output", error)?)),
    }
}
