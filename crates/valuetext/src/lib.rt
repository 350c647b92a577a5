//! Dates, times, timestamps and decimal numbers as text, and back.
//!
//! `specs/Dates.antt`, `Times.antt`, `Timestamps.antt` and `Decimals.antt` say which text a number has and which
//! number a text is read as. `specs/Laws.antt` says that the two agree.
#![tactic(auto)]

mod dates;
mod decimals;
mod laws;
mod times;
mod timestamps;
mod twos_complement;
mod unit;

pub use dates::{date_text, read_date};
pub use decimals::{decimal_text, read_decimal};
pub use laws::{
    bytes_read_back, dates_read_back, decimals_read_back, shortest_are_fewest, times_read_back,
    timestamps_read_back,
};
pub use times::{read_time, time_text};
pub use timestamps::{read_timestamp, timestamp_text};
pub use twos_complement::{bytes_of, number_of, repeats_sign, shortest_bytes_of};
pub use unit::TimeUnit;
