//! Files of the host, read whole or in parts, or made whole.

ghost use Rattle.std.specs.Prelude.{◌≡◌, ◌⊎◌, ◌↔◌, ◌≤◌, ◌+◌, None, take, drop, OnOk, IfOk, IfErr};
ghost use Rattle.std.specs.Str.{IsUtf8};
ghost use Rattle.std.specs.IoError.{error_kind};
ghost use Rattle.std.specs.Io.KnownBytes.{Appends};
ghost use Rattle.bits.specs.Refusals.{RefusedOnly, RefusedMemoryOnly};
ghost use Rattle.bits.specs.declared.refusal.Refusal.TheVariants.{Memory, Exists, Device, Script};
ghost use Rattle.program.specs.Program.{greatest_file};
ghost use Rattle.program.specs.Paths.{Unknown};

use crate::parts::check_empty;
use crate::paths::{Paths, folder_of};
use bits::{R, Refusal};
use reasons::{Cause, SystemFault, system_fault, utf8_fault};
use reports::{ByteSource, part_of};
use simdutf8::basic::from_utf8;
use std::alloc::Global;
use std::fs::{self, File, OpenFile};
use std::io::{self, ErrorKind, Input, Read, Seek, SeekFrom, Write};
use std::rt::Files;

/// One byte more than a file may have.
const MORE_THAN_A_FILE: u64 = 2_147_483_648;

/// A file of fewer bytes is read whole.
const BYTES_OF_SMALL_FILE: u64 = 65_536;

/// How many bytes are read at least where a part of a file is: what stands beside it is often looked at next.
const BYTES_OF_PART: usize = 4_096;

/// The number that the system gives the error "File exists".
const FILE_EXISTS: i32 = 17;

/// The path that is the standard input.
const INPUT: &str = "-";

/// How many bytes are gathered before they are written.
pub const OUTPUT_BUFFER_BYTES: usize = 65_536;

/// How many names are tried for a file that is not whole yet.
const MOST_NAMES: u32 = 1_000;

/// The files of the host.
#[derive(Drop)]
pub struct HostPaths<'a, F: Files + Input> {
    pub rt: &'a F,
}

// What the host's files hold is not known.
impl<F: Files + Input> Paths for HostPaths<'_, F> {
    type Parts = FileParts<F::File>;

    ghost files = { λ host path. Unknown };

    fn bytes_of(&self, alloc: Global, path: &str, why: &mut Option<Cause>) -> R<Vec<u8>> {
        bytes_of(self.rt, alloc, path, why)
    }

    fn whole_of(&self, alloc: Global, path: &str, why: &mut Option<Cause>) -> R<Vec<u8>> {
        whole_of(self.rt, alloc, path, why)
    }

    fn large_file(
        &self,
        alloc: Global,
        path: &str,
        why: &mut Option<Cause>,
    ) -> R<Option<FileParts<F::File>>> {
        large_file(self.rt, alloc, path, why)
    }

    fn is_folder(&self, path: &str) -> bool {
        is_folder(self.rt, path)
    }

    fn check_free(&self, alloc: Global, path: &str, why: &mut Option<Cause>) -> R<()> {
        check_free(self.rt, alloc, path, why)
    }

    fn check_empty(&self, alloc: Global, folder: &str, why: &mut Option<Cause>) -> R<()> {
        check_empty(self.rt, alloc, folder, why)
    }

    fn is_within(&self, alloc: Global, inner: &str, outer: &str) -> bool {
        is_within(self.rt, alloc, inner, outer)
    }

    fn put_new(
        &mut self,
        alloc: Global,
        path: &str,
        bytes: &[u8],
        why: &mut Option<Cause>,
    ) -> R<()> {
        put_new(self.rt, alloc, path, bytes, why)
    }

    fn make_new(
        &mut self,
        alloc: Global,
        path: &str,
        bytes: &[u8],
        why: &mut Option<Cause>,
    ) -> R<()> {
        make_new(self.rt, alloc, path, bytes, why)
    }

    fn sync_folder(&self, alloc: Global, path: &str, why: &mut Option<Cause>) -> R<()> {
        sync_folder(self.rt, alloc, path, why)
    }

    fn remove(&mut self, path: &str) -> io::Result<()> {
        fs::remove_file(self.rt, path)
    }
}

/// Why a file or a writer could not be used: Memory where a growth was refused, else Device.
pub fn refusal_of(error: io::Error) -> Refusal
    ensures which { (result ≡ Memory) ⊎ (result ≡ Device) }
    ensures memory { result ≡ Memory ↔ (error_kind error ≡ ErrorKind.OutOfMemory) }
{
    match error.kind() {
        ErrorKind::OutOfMemory => Refusal::Memory,
        _ => Refusal::Device,
    }
}

/// What is refused where the system refuses something at a path; `why` gets its words.
fn refused_at(alloc: Global, path: &str, error: io::Error, why: &mut Option<Cause>) -> Refusal
    ensures which { (result ≡ Memory) ⊎ (result ≡ Device) }
{
    if let Ok(fault) = system_fault(alloc, path, error) {
        *why = Some(Cause::System(fault));
    }
    refusal_of(error)
}

/// What is refused where a part of a file cannot be read, or memory for it is refused; `why` gets the path and the system's words
/// where it is not for memory.
pub fn refused_in(alloc: Global, path: &str, error: io::Error, why: &mut Option<Cause>) -> Refusal
    ensures which { (result ≡ Memory) ⊎ (result ≡ Device) }
{
    match error.kind() {
        ErrorKind::OutOfMemory => Refusal::Memory,
        _ => refused_at(alloc, path, error, why),
    }
}

/// All that a reader gives, with room for so many bytes at first. Refused Device where it cannot be read; then `why` gets the
/// path and the system's words.
fn all_of<T: Read>(
    alloc: Global,
    path: &str,
    reader: &mut T,
    room: usize,
    why: &mut Option<Cause>,
) -> R<Vec<u8>>
    ensures which { RefusedOnly (λ e. e ≡ Device) result }
{
    let mut bytes = Vec::with_capacity(alloc, room)?;
    match reader.read_to_end(&mut bytes) {
        Ok(_) => Ok(bytes),
        Err(error) => Err(refused_at(alloc, path, error, why)),
    }
}

/// The file of the host at a path, opened. Refused as [`all_of`].
fn opened<F: Files>(rt: &F, alloc: Global, path: &str, why: &mut Option<Cause>) -> R<F::File>
    ensures which { RefusedOnly (λ e. e ≡ Device) result }
{
    match File::open(rt, path) {
        Ok(file) => Ok(file),
        Err(error) => Err(refused_at(alloc, path, error, why)),
    }
}

/// The bytes of a file of the host, but no more than are needed to see that it is too long; `-` is the standard input.
/// Refused Device where it cannot be read; then `why` gets the path and the system's words. Room for as many bytes as it is
/// said to have is asked for at once.
fn bytes_of<F: Files + Input>(
    rt: &F,
    alloc: Global,
    path: &str,
    why: &mut Option<Cause>,
) -> R<Vec<u8>>
    ensures limit { MORE_THAN_A_FILE ≡ greatest_file + 1 }
    ensures which { RefusedOnly (λ e. e ≡ Device) result }
{
    if path == INPUT {
        let mut front = rt.reader().take(MORE_THAN_A_FILE);
        return all_of(alloc, path, &mut front, 0, why);
    }
    let file = opened(rt, alloc, path, why)?;
    let room = room_for(&file);
    let mut front = file.take(MORE_THAN_A_FILE);
    all_of(alloc, path, &mut front, room, why)
}

/// A file of the host that is read in parts. The part that was read last is kept, and not read again.
#[derive(Drop)]
pub struct FileParts<T: Read + Seek + Drop> {
    file: T,
    length: usize,
    /// The bytes that were read last.
    held: Vec<u8>,
    /// Where these begin in the file.
    start: usize,
    /// Where what is looked at begins in them.
    from: usize,
    /// How many of them are looked at.
    count: usize,
}

impl<T: Read + Seek + Drop> FileParts<T> {
    /// A file of so many bytes, none of which is read yet.
    fn new(alloc: Global, file: T, length: usize) -> FileParts<T> {
        FileParts {
            file,
            length,
            held: Vec::new(alloc),
            start: 0,
            from: 0,
            count: 0,
        }
    }

    /// Whether so many bytes from this one on are held.
    fn holds(&self, from: usize, count: usize) -> bool {
        match from.checked_sub(self.start) {
            Some(before) => before.saturating_add(count) <= self.held.len(),
            None => false,
        }
    }

    /// Reads so many bytes from this one on, and holds them. Holds none where they cannot be read.
    fn read(&mut self, from: usize, count: usize) -> io::Result<()> {
        self.start = from;
        let filled = self.fill(count);
        if filled.is_err() {
            self.held.clear();
        }
        filled
    }

    /// Fills what is held with so many bytes, from its start in the file on.
    fn fill(&mut self, count: usize) -> io::Result<()> {
        self.held.clear();
        self.held.resize(count, 0)?;
        self.file.seek(SeekFrom::Start(self.start as u64))?;
        self.file.read_exact(&mut self.held)
    }
}

// The file is the system's: what its bytes are is not known.
impl<T: Read + Seek + Drop> ByteSource for FileParts<T> {
    type Fault = io::Error;

    ghost known = { λ s. None };

    ghost seen = { λ s. take s.count (drop s.from s.held.items) };

    fn len(&self) -> usize {
        self.length
    }

    fn look(&mut self, from: usize, count: usize) -> Result<(), io::Error> {
        let from = from.min(self.length);
        let left = self.length - from;
        let count = count.min(left);
        if !self.holds(from, count) {
            self.count = 0;
            self.read(from, count.max(BYTES_OF_PART).min(left))?;
        }
        self.from = from.saturating_sub(self.start);
        self.count = count;
        Ok(())
    }

    fn window(&self) -> &[u8] {
        part_of(self.held.as_slice(), self.from, self.count)
    }
}

/// The file of the host at a path, to be read in parts. None for the standard input, `-`, for a pipe, and for a file that is
/// small, or too long to be one: they are read whole. Refused as [`bytes_of`].
fn large_file<F: Files>(
    rt: &F,
    alloc: Global,
    path: &str,
    why: &mut Option<Cause>,
) -> R<Option<FileParts<F::File>>>
    ensures which { RefusedOnly (λ e. e ≡ Device) result }
{
    match large_length(rt, path) {
        Some(length) => {
            let file = opened(rt, alloc, path, why)?;
            Ok(Some(FileParts::new(alloc, file, length)))
        }
        None => Ok(None),
    }
}

/// The length of the file at a path that is read in parts; None for one that is read whole.
fn large_length<F: Files>(rt: &F, path: &str) -> Option<usize> {
    if path == INPUT {
        return None;
    }
    let metadata = fs::metadata(rt, path).ok()?;
    let length = metadata.len();
    if metadata.is_file() && length >= BYTES_OF_SMALL_FILE && length < MORE_THAN_A_FILE {
        Some(length as usize)
    } else {
        None
    }
}

/// The bytes of a file of the host, all of them; `-` is the standard input. Refused as [`bytes_of`]. Room for as many
/// bytes as it is said to have, up to those of the greatest file, is asked for at once.
fn whole_of<F: Files + Input>(
    rt: &F,
    alloc: Global,
    path: &str,
    why: &mut Option<Cause>,
) -> R<Vec<u8>>
    ensures which { RefusedOnly (λ e. e ≡ Device) result }
{
    if path == INPUT {
        return all_of(alloc, path, &mut rt.reader(), 0, why);
    }
    let mut file = opened(rt, alloc, path, why)?;
    let room = room_for(&file);
    all_of(alloc, path, &mut file, room, why)
}

/// Whether a folder is there. The standard input, `-`, is none.
fn is_folder<F: Files>(rt: &F, path: &str) -> bool {
    if path == INPUT {
        return false;
    }
    match fs::metadata(rt, path) {
        Ok(metadata) => metadata.is_dir(),
        Err(_) => false,
    }
}

/// Looks whether a new file can get this path. Refused Exists where something is there; then `why` says so.
fn check_free<F: Files>(rt: &F, alloc: Global, path: &str, why: &mut Option<Cause>) -> R<()>
    ensures which { IfErr result (λ e. e ≡ Exists) }
{
    if fs::symlink_metadata(rt, path).is_err() {
        return Ok(());
    }
    let error = io::Error::from_raw_os_error(FILE_EXISTS);
    if let Ok(fault) = system_fault(alloc, path, error) {
        *why = Some(Cause::System(fault));
    }
    Err(Refusal::Exists)
}

/// Whether a folder is another one, or is in it, whatever links lead to both.
fn is_within<F: Files>(rt: &F, alloc: Global, inner: &str, outer: &str) -> bool {
    match (rt.canonicalize(alloc, inner), rt.canonicalize(alloc, outer)) {
        (Ok(inner), Ok(outer)) => inner.starts_with(&outer),
        _ => false,
    }
}

/// Writes all of a text. Refused Device where it cannot be written.
pub fn write_text<W: Write>(text: &[u8], out: &mut W) -> R<()>
    ensures stands { OnOk result (Appends (W.contents out.old) (W.contents out.new) text.now) }
    ensures which { RefusedOnly (λ e. e ≡ Device) result }
{
    out.write_all(text).map_err(refusal_of)
}

/// Writes all of a text, and what the writer gathered before it. Refused Device where it cannot be written.
pub fn write_whole<W: Write>(text: &[u8], out: &mut W) -> R<()>
    ensures stands { OnOk result (Appends (W.contents out.old) (W.contents out.new) text.now) }
    ensures which { RefusedOnly (λ e. e ≡ Device) result }
{
    write_text(text, out)?;
    out.flush().map_err(refusal_of)
}

/// The text that bytes are. Refused Script where they are not UTF-8. Takes no memory.
pub fn text_of(bytes: &[u8]) -> R<&str>
    ensures stands { IfOk result (λ text. text.now ≡ bytes.now) }
    ensures which { IfErr result (λ e. (e ≡ Script) × (IsUtf8 bytes.now → ⊥)) }
{
    match from_utf8(bytes) {
        Ok(text) => Ok(text),
        Err(_) => Err(Refusal::Script),
    }
}

/// The text that the bytes of a file are. Refused Script where they are not UTF-8; then `why` gets the line.
pub fn text_in<'b>(
    alloc: Global,
    path: &str,
    bytes: &'b [u8],
    why: &mut Option<Cause>,
) -> R<&'b str>
    ensures stands { IfOk result (λ text. text.now ≡ bytes.now) }
    ensures which { IfErr result (λ e. (e ≡ Script) × (IsUtf8 bytes.now → ⊥)) }
{
    match text_of(bytes) {
        Ok(text) => Ok(text),
        Err(refusal) => {
            if let Ok(Some(fault)) = utf8_fault(alloc, path, bytes) {
                *why = Some(Cause::Text(fault));
            }
            Err(refusal)
        }
    }
}

/// Makes a new file of these bytes. It is written and synced under a name of its own in the same folder, `pqds.new-N`,
/// and only then called `path`: nothing that is there is replaced, and a stop leaves all of the file, or
/// none of it, at `path` (unless the link fails). The name of its own is taken away, where the host lets it. Then the
/// folder is synced.
///
/// Refused Exists where something is at `path`, and Device where no file can be made there; then none is. Refused Device also
/// where the folder cannot be synced: then the file is there, but may not outlast a power cut. Then `why` gets the path and
/// the system's words.
pub fn put_new<F: Files>(
    rt: &F,
    alloc: Global,
    path: &str,
    bytes: &[u8],
    why: &mut Option<Cause>,
) -> R<()>
    ensures which { RefusedOnly (λ e. (e ≡ Exists) ⊎ (e ≡ Device)) result }
{
    make_new(rt, alloc, path, bytes, why)?;
    sync_folder(rt, alloc, path, why)
}

/// Makes a new file of these bytes as [`put_new`], but its folder is not synced. Refused as there where no file is made.
fn make_new<F: Files>(
    rt: &F,
    alloc: Global,
    path: &str,
    bytes: &[u8],
    why: &mut Option<Cause>,
) -> R<()>
    ensures which { RefusedOnly (λ e. (e ≡ Exists) ⊎ (e ≡ Device)) result }
{
    if fs::symlink_metadata(rt, path).is_ok() {
        return Err(refused_new(alloc, path, io::Error::from_raw_os_error(FILE_EXISTS), why));
    }
    for number in 0..MOST_NAMES {
        let beside = name_beside(alloc, path, number)?;
        match make(rt, beside.as_str(), bytes) {
            Ok(()) => {
                return match give_name(rt, beside.as_str(), path, bytes) {
                    Ok(()) => Ok(()),
                    Err(error) => Err(refused_new(alloc, path, error, why)),
                };
            }
            Err(error) if error.kind() == ErrorKind::AlreadyExists => {}
            Err(error) => return Err(refused_at(alloc, path, error, why)),
        }
    }
    if let Ok(fault) = full_fault(alloc, path) {
        *why = Some(Cause::System(fault));
    }
    Err(Refusal::Device)
}

/// The name of this number under which a file is written that will be called `path`: `pqds.new-N` in its folder.
fn name_beside(alloc: Global, path: &str, number: u32) -> R<String>
    ensures which { RefusedMemoryOnly result }
{
    match path.rsplit_once('/') {
        Some((folder, _)) => Ok(format!(in alloc; "{folder}/pqds.new-{number}")?),
        None => Ok(format!(in alloc; "pqds.new-{number}")?),
    }
}

/// What is said where each name under which a file is written is taken.
fn full_fault(alloc: Global, path: &str) -> R<SystemFault> {
    let error = io::Error::from_raw_os_error(FILE_EXISTS);
    let fault = system_fault(alloc, path, error)?;
    Ok(fault.with_advice("its folder has 1000 files pqds.new-N: remove them"))
}

/// What is refused where a new file cannot be called `path`; `why` gets the path and the system's words.
fn refused_new(alloc: Global, path: &str, error: io::Error, why: &mut Option<Cause>) -> Refusal
    ensures which { (result ≡ Memory) ⊎ ((result ≡ Exists) ⊎ (result ≡ Device)) }
{
    let refusal = refusal_of_new(error);
    if refusal != Refusal::Memory
        && let Ok(fault) = system_fault(alloc, path, error)
    {
        *why = Some(Cause::System(fault));
    }
    refusal
}

/// Why a new file could not be made: Exists where its name is taken, Memory where a growth was refused, else Device.
fn refusal_of_new(error: io::Error) -> Refusal
    ensures which { (result ≡ Memory) ⊎ ((result ≡ Exists) ⊎ (result ≡ Device)) }
    ensures taken { result ≡ Exists ↔ (error_kind error ≡ ErrorKind.AlreadyExists) }
{
    match error.kind() {
        ErrorKind::AlreadyExists => Refusal::Exists,
        _ => refusal_of(error),
    }
}

/// How much room to ask for before a file is read: for the bytes that it has, but no more than are read,
/// and for one more, so that its end is seen without growth. None where its length is not known.
fn room_for<O: OpenFile>(file: &O) -> usize
    ensures limit { result ≤ greatest_file + 2 }
{
    match file.metadata() {
        Ok(metadata) => metadata.len().min(MORE_THAN_A_FILE) as usize + 1,
        Err(_) => 0,
    }
}

/// Writes all of the bytes and makes them durable.
fn fill<O: Write + OpenFile>(file: &mut O, bytes: &[u8]) -> io::Result<()>
    ensures stands { OnOk result (Appends (O.contents file.old) (O.contents file.new) bytes.now) }
{
    file.write_all(bytes)?;
    file.sync_all()
}

/// Makes a new file of these bytes, and takes it away again where that fails midway.
fn make<F: Files>(rt: &F, path: &str, bytes: &[u8]) -> io::Result<()> {
    let mut file = File::create_new(rt, path)?;
    let filled = fill(&mut file, bytes);
    drop(file);
    if filled.is_err() {
        let _ = fs::remove_file(rt, path);
    }
    filled
}

/// Makes the name of a file durable. Refused Device where its folder cannot be opened or synced; then `why` says what that means.
fn sync_folder<F: Files>(rt: &F, alloc: Global, path: &str, why: &mut Option<Cause>) -> R<()>
    ensures which { RefusedOnly (λ e. e ≡ Device) result }
{
    match synced(rt, folder_of(path)) {
        Ok(()) => Ok(()),
        Err(error) => {
            if let Ok(fault) = system_fault(alloc, path, error) {
                let advice = "it is there, but may not outlast a power cut";
                *why = Some(Cause::System(fault.with_advice(advice)));
            }
            Err(refusal_of(error))
        }
    }
}

/// Syncs a folder.
fn synced<F: Files>(rt: &F, folder: &str) -> io::Result<()> {
    File::open(rt, folder)?.sync_all()
}

/// Gives the whole file at `beside` the name `path`, where nothing has it, and takes its own name away.
/// Where the link fails otherwise, the file is made once more, at `path`.
fn give_name<F: Files>(rt: &F, beside: &str, path: &str, bytes: &[u8]) -> io::Result<()> {
    let named = fs::hard_link(rt, beside, path);
    let _ = fs::remove_file(rt, beside);
    match named {
        Err(error) if error.kind() != ErrorKind::AlreadyExists => make(rt, path, bytes),
        _ => named,
    }
}
