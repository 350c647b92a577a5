//! Where the bytes of a new file go: to a file of the host, or to standard output.

ghost use Rattle.std.specs.Prelude.{◌≡◌, IsTrue, IfErr, OnOk};
ghost use Rattle.std.specs.Io.KnownBytes.{Appends};
ghost use Rattle.bits.specs.Refusals.{RefusedOnly};
ghost use Rattle.bits.specs.declared.refusal.Refusal.TheVariants.{Device};
ghost use Rattle.program.specs.Paths.{IsPlaceRefusal, IsUnwritten, PutsAt};
ghost use Rattle.program.specs.Words.{PutsToOutput};

use crate::arguments::Call;
use crate::calls::with_output;
use crate::host::write_whole;
use crate::paths::{Paths, folder_of};
use bits::{R, Refusal};
use reasons::{Cause, system_fault};
use std::alloc::Global;
use std::io::{self, Write};

/// The path that is standard output.
const OUTPUT: &str = "-";

/// The number that the system gives the error "Operation not permitted".
const NOT_PERMITTED: i32 = 1;

/// Whether a call gives standard output the bytes of a file.
pub fn puts_to_output(call: &Call<'_>) -> bool
    ensures { IsTrue result → PutsToOutput call.now }
{
    match call {
        Call::Copy { copying } => copying.path == OUTPUT,
        Call::Save { path, .. } => *path == OUTPUT,
        _ => false,
    }
}

/// Looks whether a new file can get this path; standard output can. Refused as [`Paths::check_free`].
pub fn check_free<P: Paths>(paths: &P, alloc: Global, path: &str, why: &mut Option<Cause>) -> R<()>
    ensures which { IfErr result (IsPlaceRefusal (P.files paths.now path.now)) }
{
    if path == OUTPUT {
        return Ok(());
    }
    paths.check_free(alloc, path, why)
}

/// Looks whether a new file is outside of the folder of a dataset, which has no files of others. Refused Device where it is in
/// it; then `why` says so. A folder that is not found is none of a dataset.
pub fn check_outside<P: Paths>(
    paths: &P,
    alloc: Global,
    path: &str,
    folder: &str,
    why: &mut Option<Cause>,
) -> R<()>
    ensures which { IfErr result (λ e. e ≡ Device) }
{
    if path == OUTPUT || !paths.is_within(alloc, folder_of(path), folder) {
        return Ok(());
    }
    let advice = "it is in the folder of the dataset: name a file elsewhere";
    Err(refused_place(alloc, path, advice, why))
}

/// Looks whether a folder is outside of the folder of a dataset. Refused as [`check_outside`].
pub fn check_folder_outside<P: Paths>(
    paths: &P,
    alloc: Global,
    path: &str,
    folder: &str,
    why: &mut Option<Cause>,
) -> R<()> {
    if !paths.is_within(alloc, path, folder) {
        return Ok(());
    }
    let advice = "it is in the folder of the dataset: name a folder elsewhere";
    Err(refused_place(alloc, path, advice, why))
}

/// What is refused where nothing of others may be made at a path; `why` says so, and what to do.
fn refused_place(
    alloc: Global,
    path: &str,
    advice: &'static str,
    why: &mut Option<Cause>,
) -> Refusal
    ensures { result ≡ Device }
{
    let error = io::Error::from_raw_os_error(NOT_PERMITTED);
    if let Ok(fault) = system_fault(alloc, path, error) {
        *why = Some(Cause::System(fault.with_advice(advice)));
    }
    Refusal::Device
}

/// Gives a new file these bytes; `-` is standard output. Refused as [`Paths::put_new`], and Device where standard output cannot be
/// written.
pub fn put<P: Paths, W: Write>(
    paths: &mut P,
    alloc: Global,
    path: &str,
    bytes: &[u8],
    out: &mut W,
    why: &mut Option<Cause>,
) -> R<()>
    ensures puts { OnOk result (PutsAt (P.files paths.old) (P.files paths.new) path.now bytes.now (W.contents out.old) (W.contents out.new)) }
    ensures which { IfErr result (IsPlaceRefusal (P.files paths.old path.now)) }
    ensures unwritten { IfErr result (IsUnwritten (W.contents out.old) (W.contents out.new)) }
{
    if path == OUTPUT {
        put_out(alloc, bytes, out, why)
    } else {
        paths.put_new(alloc, path, bytes, why)
    }
}

/// Gives standard output these bytes. Refused Device where it cannot be written; then `why` gets what it is refused for.
fn put_out<W: Write>(alloc: Global, bytes: &[u8], out: &mut W, why: &mut Option<Cause>) -> R<()>
    ensures stands { OnOk result (Appends (W.contents out.old) (W.contents out.new) bytes.now) }
    ensures which { RefusedOnly (λ e. e ≡ Device) result }
{
    match write_whole(bytes, out) {
        Ok(()) => Ok(()),
        Err(refusal) => Err(with_output(alloc, refusal, out, why)),
    }
}
