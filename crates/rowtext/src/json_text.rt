//! JSON values from text.

ghost use Rattle.std.specs.Prelude.{◌≡◌, ◌⊎◌, ◌≤◌, Some, None, IfOk, IfErr};
ghost use Rattle.bits.specs.declared.refusal.Refusal.TheVariants.{Memory, Script};
ghost use Rattle.serde_json.specs.Data.{depth};
ghost use Rattle.serde_json.specs.Read.{read};
ghost use Rattle.serde_json.specs.View.{view};

use bits::{R, Refusal};
use serde_json::Value as Json;
use std::alloc::Global;

/// The JSON value that a text is, its arrays and objects nested at most 127 deep. Refused Script where it is
/// none, or where it nests deeper.
pub fn json_of(alloc: Global, text: &str) -> R<Json>
    ensures stands { IfOk result (λ json. read text.now ≡ Some (view json)) }
    ensures nests { IfOk result (λ json. depth (view json) ≤ 127) }
    ensures which { IfErr result (λ e. (e ≡ Memory) ⊎ ((e ≡ Script) × (read text.now ≡ None))) }
{
    match Json::from_str(alloc, text) {
        Ok(json) => Ok(json),
        Err(error) => {
            if error.is_memory() {
                Err(Refusal::Memory)
            } else {
                Err(Refusal::Script)
            }
        }
    }
}
