//! A table looked at and checked, without a change: what it holds, and whether its files hold what its root says.
//!
//! `specs/Intact.antt` says what holds of a table in which nothing is found (`AreHeld`, `IsIntact`), `specs/Strays.antt` which part files
//! nothing names, and `specs/Reading.antt` what a call that only reads leaves.
#![tactic(auto)]

mod blame;
mod bounds;
mod check_text;
mod checking;
mod columns;
mod counting;
mod describing;
mod findings;
mod fronts;
mod key_texts;
mod obstacles;
mod part;
mod records;
mod survey_text;
mod surveying;
mod text_lines;
mod unnamed;
mod walk;

pub use check_text::text_of_check;
pub use checking::{Checked, Watch, check};
pub use counting::Totals;
pub use describing::described;
pub use findings::{Damage, Finding};
pub use part::{Fault, fault_of_part};
pub use survey_text::text_of_survey;
pub use surveying::{ColumnReport, KeyReport, Survey, survey_of};
pub use unnamed::leftovers;
