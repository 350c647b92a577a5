//! Handles, by which versions and descriptions share what they have in common.

ghost use Rattle.std.specs.Prelude.{◌≡◌, IfOk};
ghost use Rattle.std.specs.Rc.{rc_value};
ghost use Rattle.bits.specs.Refusals.{RefusedMemoryOnly};

use bits::{R, Refusal};
use std::alloc::Global;
use std::rc::Rc;

/// A first handle.
pub(crate) fn handle_of<T: Drop>(alloc: Global, value: T) -> R<Rc<T>>
    ensures same { IfOk result (λ handle. rc_value handle ≡ value) }
    ensures which { RefusedMemoryOnly result }
{
    match Rc::new(alloc, value) {
        Ok(handle) => Ok(handle),
        Err(_) => Err(Refusal::Memory),
    }
}
