//! Whether `decode` accepts a file, and each of its groups.

ghost use Rattle.std.specs.Prelude.{◌≡◌, ◌≢◌, ◌↔◌, IfOk, IsTrue, Some, None};
ghost use Rattle.metadata.specs.Views.{group_meta_view};
ghost use Rattle.footer.specs.File.{LiesHere};
ghost use Rattle.reports.specs.Verdict.{IsAccepted, CanBeRead};

use bits::Refusal;
use footer::FileReader;
use metadata::GroupMeta;
use row_group::check_group;
use schema::Schema;
use std::alloc::{AllocError, Global};

/// Why `decode` refuses the bytes of a file; None where it accepts them. It fails only when out of memory. Time and memory are
/// those of [`FileReader::new`], which decides.
pub fn refusal_of_file(alloc: Global, bytes: &[u8]) -> Result<Option<Refusal>, AllocError>
    ensures verdict { IfOk result (λ found. (found ≡ None) ↔ IsAccepted bytes.now) }
{
    match FileReader::new(alloc, bytes) {
        Ok(_) => Ok(None),
        Err(refusal) => unless_memory(refusal),
    }
}

/// A refusal that was found; it fails where that is Memory.
fn unless_memory(refusal: Refusal) -> Result<Option<Refusal>, AllocError>
    ensures { IfOk result (λ found. (found ≡ Some refusal) × (refusal ≢ Refusal.Memory)) }
{
    match refusal {
        Refusal::Memory => Err(AllocError),
        refusal => Ok(Some(refusal)),
    }
}

/// Why `decode` refuses a group, by the bytes of its file before the footer; None where it reads the group. It fails only when
/// out of memory. [`check_group`] decides, and Page is the refusal of a group with a chunk in another file.
pub fn refusal_of_group(
    alloc: Global,
    front: &[u8],
    group: &GroupMeta,
    schema: &Schema,
) -> Result<Option<Refusal>, AllocError>
    ensures verdict { IfOk result (λ found. (found ≡ None) ↔ CanBeRead front.now schema.now (group_meta_view group.now)) }
{
    if !lies_here(group) {
        return Ok(Some(Refusal::Page));
    }
    match check_group(alloc, front, group, schema) {
        Ok(()) => Ok(None),
        Err(refusal) => unless_memory(refusal),
    }
}

/// Whether the chunks of a group lie in its file.
fn lies_here(group: &GroupMeta) -> bool
    ensures { IsTrue result ↔ LiesHere (group_meta_view group.now) }
{
    for chunk in &group.columns {
        if chunk.file_path.is_some() {
            return false;
        }
    }
    true
}
