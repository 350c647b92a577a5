//! All of the program, over two writers.

ghost use Rattle.std.specs.Prelude.{◌≡◌, ◌≢◌, ◌⊎◌, ◌≤◌, ℕ, Bool, List, Option, Some, false, true, map, string_bytes, IfOk, IfErr, OnOk, codes};
ghost use Rattle.bits.specs.Refusals.{RefusedMemoryOnly};
ghost use Rattle.bits.specs.declared.refusal.Refusal.TheVariants.{Memory, Device};
ghost use Rattle.program.specs.Asked.{IsDone, EndsRefused, AreUnused};
ghost use Rattle.program.specs.Paths.{IsUnwritten};
ghost use Rattle.program.specs.Program.{IsCopyRefusal, WritesCount, WritesReportOf, WritesReportAt, IsPartsRefusal, IsReportRefusal, AreRefusedSources};
ghost use Rattle.program.specs.RefusalLine.{WritesRefusal};
ghost use Rattle.program.specs.Words.{first_word, word_of, DecodesAt, RefusesDecoding, IsCopyAsked, CopiesAsked, RefusesCopying};
ghost use Rattle.program.specs.Words.{Saves, RefusesSaving, Does, RefusesAsked, MakesNoFile};

use crate::arguments::{Call, Copying, request_of};
use crate::check::check;
use crate::copy::copy_of;
use crate::encode::{Sources, encode};
use crate::first_rows::decode_up_to;
use crate::inspect::{inspect, inspect_parts};
use crate::parts::PartFolder;
use crate::paths::Paths;
use crate::putting::{check_folder_outside, check_free, check_outside, put, puts_to_output};
use crate::refusal_line::put_refusal;
use bits::{R, Refusal};
use columns::has_column;
use dataset_words::Datasets;
use footer::{FileReader, WriteOptions};
use reasons::{Cause, options_fault, output_cause};
use reports::{ByteSource, OneLine, Terminals, first_problem};
use std::alloc::Global;
use std::fmt::Write as _;
use std::io::{self, Write};

/// The program did what it was called for.
const DONE: u8 = 0;
/// The call was refused.
const REFUSED: u8 = 1;
/// The words are no call, or ask for help.
const USAGE: u8 = 2;

/// What is said where the bytes of a file would go to a terminal.
const FILE_TO_TERMINAL: &[u8] =
    b"error: the bytes of a Parquet file are nothing for a terminal: name a file, or pass them on\n";

/// How a call of the program ends.
#[derive(Clone, Copy)]
pub struct Ending {
    /// The status of the program.
    pub status: u8,
    /// Whether all that was to be said of it could be written to standard error.
    pub is_told: bool,
}

/// Says for what a call was refused, in one line, whatever the names of columns have in them. Where that line cannot be written
/// nothing is left to be said.
pub fn refuse<E: Write>(alloc: Global, err: &mut E, refusal: &Refusal) -> Ending
    ensures status { result.status ≡ 1 }
    ensures told { result.is_told ≡ true → WritesRefusal refusal.now (E.contents err.old) (E.contents err.new) }
{
    Ending {
        status: REFUSED,
        is_told: put_refusal(alloc, err, refusal).is_ok(),
    }
}

/// Says how the program is used.
fn tell_use<E: Write>(err: &mut E, text: &[u8]) -> Ending
    ensures { result.status ≡ 2 }
{
    Ending {
        status: USAGE,
        is_told: err.write_all(text).is_ok(),
    }
}

/// What the program does for these arguments, which begin after its name; returns its status, as [`ended`].
pub fn work<P: Paths, W: Write, E: Write, M: Datasets<W, E>>(
    paths: &mut P,
    alloc: Global,
    words: &[String],
    out: &mut W,
    err: &mut E,
    terminals: Terminals,
    datasets: &mut M,
) -> u8
    ensures status { result ≤ 2 }
    ensures done { result ≡ 0 → IsDone (M.prints datasets.old datasets.new) (M.gives datasets.old datasets.new)
        (P.files paths.old) (P.files paths.new) words.now (W.contents out.old) (W.contents out.new) (E.contents err.old) (E.contents err.new) }
    ensures refused { result ≡ 1 → (is_told : Bool) × EndsRefused (M.refuses datasets.old datasets.new) (M.withholds datasets.old datasets.new)
        (P.files paths.old) (P.files paths.new) words.now (W.contents out.old) (W.contents out.new) is_told E.contents err.new }
    ensures usage { result ≡ 2 → AreUnused words.now terminals.out × (W.contents out.new ≡ W.contents out.old) × (P.files paths.new ≡ P.files paths.old) }
    ensures silent { first_word words.now ≡ Some (codes "encode") → W.contents out.new ≡ W.contents out.old }
    ensures quiet { terminals.err ≡ false → result ≡ 0 → E.contents err.new ≡ E.contents err.old }
{
    ended(paths, alloc, words, out, err, terminals, datasets).status
}

/// What the program does for these arguments, which begin after its name; returns how that ends.
///
/// Status 0: done, and `out` has what was asked for; of `encode` it has nothing, and the new file is there.
/// Status 1: refused, with one line on `err`, such as `refused 6 Float a.b`, before which mostly stands one that says why; `out`
/// has nothing new where the file itself was refused. Status 2: the arguments are no call of the program, or ask for help, and
/// `err` has the text on its use. Only a call that is to make a file changes what is at paths.
///
/// `terminals` says which of both are terminals. Where `err` is one, and `--quiet` is not among the arguments, `decode`,
/// `encode` and calls on a dataset show on it how far they are, and take that away again at the end; and a call on a
/// dataset says there what it waits for. `datasets` makes the calls on datasets.
pub fn ended<P: Paths, W: Write, E: Write, M: Datasets<W, E>>(
    paths: &mut P,
    alloc: Global,
    words: &[String],
    out: &mut W,
    err: &mut E,
    terminals: Terminals,
    datasets: &mut M,
) -> Ending
    ensures status { result.status ≤ 2 }
    ensures done { result.status ≡ 0 → IsDone (M.prints datasets.old datasets.new) (M.gives datasets.old datasets.new)
        (P.files paths.old) (P.files paths.new) words.now (W.contents out.old) (W.contents out.new) (E.contents err.old) (E.contents err.new) }
    ensures refused { result.status ≡ 1 → EndsRefused (M.refuses datasets.old datasets.new) (M.withholds datasets.old datasets.new)
        (P.files paths.old) (P.files paths.new) words.now (W.contents out.old) (W.contents out.new) result.is_told E.contents err.new }
    ensures usage { result.status ≡ 2 → AreUnused words.now terminals.out × (W.contents out.new ≡ W.contents out.old) × (P.files paths.new ≡ P.files paths.old) }
    ensures silent { first_word words.now ≡ Some (codes "encode") → W.contents out.new ≡ W.contents out.old }
    ensures quiet { terminals.err ≡ false → result.status ≡ 0 → E.contents err.new ≡ E.contents err.old }
{
    let request = match request_of(alloc, words) {
        Ok(Ok(request)) => request,
        Ok(Err(text)) => return tell_use(err, text.as_bytes()),
        Err(refusal) => return refuse(alloc, err, &refusal),
    };
    let call = &request.call;
    if terminals.out && puts_to_output(call) {
        return tell_use(err, FILE_TO_TERMINAL);
    }
    let terminals = terminals_for(request.quiet, terminals);
    let mut why = None;
    match make(paths, alloc, call, out, err, terminals, datasets, &mut why) {
        Ok(()) => Ending {
            status: DONE,
            is_told: true,
        },
        Err(refusal) => {
            if let Some(cause) = &why {
                say(err, cause);
            }
            refuse(alloc, err, &refusal)
        }
    }
}

/// Says why a call was refused, in one line, whatever the names in it have. Where that cannot be written nothing is left to
/// be said.
pub fn say<E: Write>(err: &mut E, cause: &Cause) {
    let mut line = OneLine(&mut *err);
    if write!(line, "{cause}").is_ok() {
        let _ = err.write_all(b"\n");
    }
}

/// The terminals on which progress is shown: standard error only where the call is not to be quiet.
fn terminals_for(quiet: bool, terminals: Terminals) -> Terminals
    ensures unseen { terminals.err ≡ false → result.err ≡ false }
    ensures silenced { quiet ≡ true → result.err ≡ false }
{
    Terminals {
        out: terminals.out,
        err: if quiet { false } else { terminals.err },
    }
}

/// Makes the call; where it is refused, `why` may get the reason. Progress is shown where `err` is a terminal; of lines that go
/// to a terminal too, none.
fn make<P: Paths, W: Write, E: Write, M: Datasets<W, E>>(
    paths: &mut P,
    alloc: Global,
    call: &Call<'_>,
    out: &mut W,
    err: &mut E,
    terminals: Terminals,
    datasets: &mut M,
    why: &mut Option<Cause>,
) -> R<()>
    ensures done { OnOk result (Does (M.prints datasets.old datasets.new) (M.gives datasets.old datasets.new)
        (P.files paths.old) (P.files paths.new) call.now (W.contents out.old) (W.contents out.new)) }
    ensures refused { IfErr result (RefusesAsked (M.refuses datasets.old datasets.new) (M.withholds datasets.old datasets.new)
        (P.files paths.old) call.now (W.contents out.old) (W.contents out.new)) }
    ensures kept { MakesNoFile call.now → P.files paths.new ≡ P.files paths.old }
    ensures silent { word_of call.now ≡ codes "encode" → W.contents out.new ≡ W.contents out.old }
    ensures quiet { terminals.err ≡ false → OnOk result (E.contents err.new ≡ E.contents err.old) }
{
    match call {
        Call::Decode { file, limit, texts } => {
            decode_file(paths, alloc, file, *limit, *texts, out, err, terminals, why)
        }
        Call::Copy { copying } => copy_file(paths, alloc, copying, out, err, terminals, why),
        Call::Encode { sources, file } => {
            encode(paths, alloc, sources, file, err, terminals.err, why)
        }
        Call::Inspect { file, table, .. } if paths.is_folder(file) => {
            datasets.make(alloc, table, out, err, terminals)
        }
        Call::Inspect { file, as_json, .. } => inspect_file(paths, alloc, file, *as_json, out, why),
        Call::Check { sources, table } if paths.is_folder(sources.schema) => {
            datasets.make(alloc, table, out, err, terminals)
        }
        Call::Check { sources, .. } => check_files(paths, alloc, sources, out, err, why),
        Call::Dataset { call } => datasets.make(alloc, call, out, err, terminals),
        Call::Save { call, path } if paths.is_folder(path) => {
            save_parts(paths, alloc, call, path, err, terminals, datasets, why)
        }
        Call::Save { call, path } => {
            save_file(paths, alloc, call, path, out, err, terminals, datasets, why)
        }
    }
}

/// Says whether two files would be made into one, as [`check`]; then `why` may get what the output is refused for.
fn check_files<P: Paths, W: Write, E: Write>(
    paths: &P,
    alloc: Global,
    sources: &Sources<'_>,
    out: &mut W,
    err: &mut E,
    why: &mut Option<Cause>,
) -> R<()>
    ensures stands { OnOk result (WritesCount sources.now.texts sources.now.options (P.files paths.now sources.now.schema.now)
        (P.files paths.now sources.now.rows.now) (W.contents out.old) (W.contents out.new)) }
    ensures which { IfErr result (λ e. AreRefusedSources sources.now.texts sources.now.options (P.files paths.now sources.now.schema.now)
        (P.files paths.now sources.now.rows.now) e × IsUnwritten (W.contents out.old) (W.contents out.new) e) }
    ensures quiet { OnOk result (E.contents err.new ≡ E.contents err.old) }
{
    match check(paths, alloc, sources, out, err, why) {
        Ok(()) => Ok(()),
        Err(refusal) => Err(with_output(alloc, refusal, out, why)),
    }
}

/// Makes a file of the rows of another one. Refused as [`check_free`], [`Paths::bytes_of`], [`copied`] and [`put`]; then `why` may get
/// the reason, also what is wrong with that file.
fn copy_file<P: Paths, W: Write, E: Write>(
    paths: &mut P,
    alloc: Global,
    copying: &Copying<'_>,
    out: &mut W,
    err: &mut E,
    terminals: Terminals,
    why: &mut Option<Cause>,
) -> R<()>
    ensures done { OnOk result (CopiesAsked (P.files paths.old) (P.files paths.new) copying.now (W.contents out.old) (W.contents out.new)) }
    ensures refused { IfErr result (RefusesCopying (P.files paths.old) copying.now (W.contents out.old) (W.contents out.new)) }
    ensures quiet { terminals.err ≡ false → OnOk result (E.contents err.new ≡ E.contents err.old) }
{
    check_free(paths, alloc, copying.path, why)?;
    let bytes = paths.bytes_of(alloc, copying.file, why)?;
    let copy = copied(alloc, bytes.as_slice(), copying, err, terminals.err);
    let copy = with_option(&copying.options, copy, why);
    let copy = with_problem(alloc, copying.file, bytes.as_slice(), copy, why)?;
    put(paths, alloc, copying.path, copy.as_slice(), out, why)
}

/// The bytes of a file of the rows of another one, as it is asked for. Refused as [`copy_of`]; where that is for a column that is
/// not there, `err` gets a line that says so.
fn copied<E: Write>(
    alloc: Global,
    bytes: &[u8],
    copying: &Copying<'_>,
    err: &mut E,
    shows: bool,
) -> R<Vec<u8>>
    ensures stands { IfOk result (λ copy. IsCopyAsked copying.now bytes.now copy.items) }
    ensures which { IfErr result (λ e. (e ≡ Memory) ⊎ IsCopyRefusal copying.now.limit bytes.now e) }
    ensures quiet { shows ≡ false → OnOk result (E.contents err.new ≡ E.contents err.old) }
{
    let (limit, options) = (copying.limit, &copying.options);
    if copying.columns.is_empty() {
        return copy_of(alloc, bytes, None, limit, options, err, shows);
    }
    let names = owned(alloc, copying.columns.as_slice())?;
    match copy_of(
        alloc,
        bytes,
        Some(names.as_slice()),
        limit,
        options,
        err,
        shows,
    ) {
        Ok(copy) => Ok(copy),
        Err(refusal) => {
            if refusal == Refusal::NoColumn {
                say_missing(alloc, bytes, names.as_slice(), err);
            }
            Err(refusal)
        }
    }
}

/// Says which of the names is of no column of a file.
fn say_missing<E: Write>(alloc: Global, bytes: &[u8], names: &[String], err: &mut E) {
    let Ok(file) = FileReader::of_first_rows(alloc, bytes, 0) else {
        return;
    };
    for name in names {
        if !has_column(file.schema(), name.as_str()) {
            let mut line = OneLine(&mut *err);
            if write!(line, "no column is named {name:?}").is_ok() {
                let _ = err.write_all(b"\n");
            }
            return;
        }
    }
}

/// The words, each as a text of its own. It fails only when out of memory.
fn owned(alloc: Global, words: &[&str]) -> R<Vec<String>>
    ensures same { IfOk result (λ texts. map string_bytes texts.items ≡ map (λ word. word.now) words.now) }
    ensures which { RefusedMemoryOnly result }
{
    let mut texts = Vec::with_capacity(alloc, words.len())?;
    for word in words {
        texts.push(String::from_str(alloc, word)?)?;
    }
    Ok(texts)
}

/// Makes a file of what is asked of a dataset. Refused as [`check_free`], as [`check_outside`], as the call is, and as [`put`]; then
/// `why` may get the reason.
fn save_file<P: Paths, W: Write, E: Write, M: Datasets<W, E>>(
    paths: &mut P,
    alloc: Global,
    call: &dataset_words::Call<'_>,
    path: &str,
    out: &mut W,
    err: &mut E,
    terminals: Terminals,
    datasets: &mut M,
    why: &mut Option<Cause>,
) -> R<()>
    ensures done { OnOk result (Saves (M.gives datasets.old datasets.new) (P.files paths.old) (P.files paths.new) call.now path.now
        (W.contents out.old) (W.contents out.new)) }
    ensures refused { IfErr result (RefusesSaving (M.withholds datasets.old datasets.new) (P.files paths.old) call.now path.now
        (W.contents out.old) (W.contents out.new)) }
    ensures quiet { terminals.err ≡ false → OnOk result (E.contents err.new ≡ E.contents err.old) }
{
    check_free(paths, alloc, path, why)?;
    check_outside(paths, alloc, path, call.folder, why)?;
    let file = datasets.file_of(alloc, call, err, terminals)?;
    put(paths, alloc, path, file.as_slice(), out, why)
}

/// Makes files of what is asked of a dataset in an empty folder. Refused as [`check_folder_outside`], as [`Paths::check_empty`], as
/// the call is, and as a file that cannot be made; then `why` may get the reason, the files that were made are removed, and `err`
/// gets a line for each that stays.
fn save_parts<P: Paths, W: Write, E: Write, M: Datasets<W, E>>(
    paths: &mut P,
    alloc: Global,
    call: &dataset_words::Call<'_>,
    folder: &str,
    err: &mut E,
    terminals: Terminals,
    datasets: &mut M,
    why: &mut Option<Cause>,
) -> R<()>
    ensures gives { OnOk result ((was is : Option (List (List ℕ))) × M.gives datasets.old datasets.new call.now was is) }
    ensures quiet { terminals.err ≡ false → OnOk result (E.contents err.new ≡ E.contents err.old) }
{
    check_folder_outside(paths, alloc, folder, call.folder, why)?;
    paths.check_empty(alloc, folder, why)?;
    let mut parts = PartFolder::new(paths, alloc, folder);
    match datasets.files_of(alloc, call, &mut parts, err, terminals) {
        Ok(()) => Ok(()),
        Err(refusal) => {
            parts.remove(err);
            *why = parts.why();
            Err(refusal)
        }
    }
}

/// Prints the rows of a file, all or the first so many, with texts or without. Refused as [`Paths::bytes_of`] and [`decode_up_to`]; then
/// `why` may get the reason.
fn decode_file<P: Paths, W: Write, E: Write>(
    paths: &P,
    alloc: Global,
    file: &str,
    limit: Option<u64>,
    texts: bool,
    out: &mut W,
    err: &mut E,
    terminals: Terminals,
    why: &mut Option<Cause>,
) -> R<()>
    ensures done { OnOk result (DecodesAt (P.files paths.now file.now) texts limit (W.contents out.old) (W.contents out.new)) }
    ensures refused { IfErr result (RefusesDecoding (P.files paths.now file.now) limit (W.contents out.old) (W.contents out.new)) }
    ensures quiet { terminals.err ≡ false → E.contents err.new ≡ E.contents err.old }
{
    let bytes = paths.bytes_of(alloc, file, why)?;
    let shows = terminals.shows_beside_output();
    let decoded = decode_up_to(alloc, bytes.as_slice(), limit, texts, out, err, shows);
    match with_problem(alloc, file, bytes.as_slice(), decoded, why) {
        Ok(()) => Ok(()),
        Err(refusal) => Err(with_output(alloc, refusal, out, why)),
    }
}

/// Prints what a file is. A large file is read in parts. Refused as [`Paths::bytes_of`] and [`inspect`]; then `why` may get the reason.
fn inspect_file<P: Paths, W: Write>(
    paths: &P,
    alloc: Global,
    file: &str,
    as_json: bool,
    out: &mut W,
    why: &mut Option<Cause>,
) -> R<()>
    ensures done { OnOk result (WritesReportAt (P.files paths.now file.now) (W.contents out.old) (W.contents out.new)) }
    ensures refused { IfErr result (λ e. IsReportRefusal (P.files paths.now file.now) e × IsUnwritten (W.contents out.old) (W.contents out.new) e) }
{
    if let Some(mut parts) = paths.large_file(alloc, file, why)? {
        return inspect_large(alloc, file, &mut parts, as_json, out, why);
    }
    let bytes = paths.bytes_of(alloc, file, why)?;
    let inspected = inspect(alloc, bytes.as_slice(), as_json, out);
    match with_problem(alloc, file, bytes.as_slice(), inspected, why) {
        Ok(()) => Ok(()),
        Err(refusal) => Err(with_output(alloc, refusal, out, why)),
    }
}

/// Prints what a large file is, as [`inspect_parts`]; then `why` may also get what the output is refused for.
fn inspect_large<S: ByteSource<Fault = io::Error>, W: Write>(
    alloc: Global,
    file: &str,
    parts: &mut S,
    as_json: bool,
    out: &mut W,
    why: &mut Option<Cause>,
) -> R<()>
    ensures stands { OnOk result ((bytes : List ℕ) × WritesReportOf bytes (W.contents out.old) (W.contents out.new)) }
    ensures which { IfErr result (λ e. IsPartsRefusal e × IsUnwritten (W.contents out.old) (W.contents out.new) e) }
{
    match inspect_parts(alloc, file, parts, as_json, out, why) {
        Ok(()) => Ok(()),
        Err(refusal) => Err(with_output(alloc, refusal, out, why)),
    }
}

/// The same result. Where it is a refusal of the bytes of a file, `why` gets the name of the file and what is wrong with it, if
/// something is and there is memory to find it.
fn with_problem<T: Drop>(
    alloc: Global,
    file: &str,
    bytes: &[u8],
    given: R<T>,
    why: &mut Option<Cause>,
) -> R<T>
    ensures same { result ≡ given }
{
    if let Err(refusal) = &given
        && *refusal != Refusal::Device
        && *refusal != Refusal::Memory
        && *refusal != Refusal::NoColumn
        && let Ok(Some(problem)) = first_problem(alloc, bytes)
        && let Ok(line) = format!(in alloc; "{file}: {problem}")
    {
        *why = Some(Cause::Said(line));
    }
    given
}

/// The same result. Where it is Limit for an option that is out of range, `why` gets which one.
fn with_option<T: Drop>(options: &WriteOptions, given: R<T>, why: &mut Option<Cause>) -> R<T>
    ensures same { result ≡ given }
{
    if let Err(refusal) = &given
        && *refusal == Refusal::Limit
        && let Some(fault) = options_fault(
            options.group_rows,
            options.page_rows,
            options.page_version,
        )
    {
        *why = Some(Cause::Limit(fault));
    }
    given
}

/// The same refusal. Where it is Device, for no reason that is known, `why` gets what the output is refused for: it is asked
/// once more.
pub(crate) fn with_output<W: Write>(
    alloc: Global,
    refusal: Refusal,
    out: &mut W,
    why: &mut Option<Cause>,
) -> Refusal
    ensures same { result ≡ refusal }
    ensures unwritten { refusal ≢ Device → W.contents out.new ≡ W.contents out.old }
{
    if why.is_none() && refusal == Refusal::Device {
        *why = match out.flush() {
            Ok(()) => Some(Cause::Output),
            Err(error) => output_cause(alloc, error).ok(),
        };
    }
    refusal
}
