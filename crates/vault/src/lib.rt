//! Files that a crash leaves whole, and a root that is swapped for another in one step.
//!
//! What each call leaves stands in `specs/Calls.antt`, over the bytes that each path has in whatever a crash may leave
//! (`specs/Views.antt`), and where a file can stand (`specs/Ways.antt`). A caller needs to know nothing of nodes, sectors or
//! names that are not durable. What a caller's proof joins calls by stands in `proofs/Moments.antt` and `Chained.antt`.
#![tactic(auto)]

mod files;
mod laws;
mod vault;

pub use laws::{apart, way_down};
pub use vault::Vault;
