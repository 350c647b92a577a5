//! Datasets in folders of the host.

ghost use Rattle.places.specs.Places.{knows_nothing};

use crate::file_ends::ends_of;
use crate::folder::{bytes_at, bytes_of, disk_of, is_folder, make_folder, node_at, root_is_free};
use crate::folder_lock::locked;
use crate::host_reader::{HostReader, open_reader};
use crate::lock::{Access, Lock, Patience};
use crate::notes::Notes;
use crate::places::{Node, Places};
use crate::readers_lock::{Readers, kept_out, make_file, shared, waited_out};
use crate::reason::Reason;
use bits::R;
use disk::HostDisk;
use std::alloc::Global;
use std::fs;
use std::io::{self, Input, Write};
use std::rt::{Clock, Files};

/// Folders of the host. Nothing is known of what is in them, as nothing is of any folder of the host.
#[derive(Drop)]
pub struct HostPlaces<'a, F: Files + Input + Clock + Clone + Drop> {
    pub files: &'a F,
}

impl<'a, F: Files + Input + Clock + Clone + Drop> Places for HostPlaces<'a, F>
where
    F::File: Lock,
{
    type Disk = HostDisk<F>;

    type Held = F::File;

    type Reader = HostReader<F::File, F::Reader>;

    ghost known = { λ places. knows_nothing };

    fn bytes(&mut self, alloc: Global, path: &str, notes: &Notes) -> R<Vec<u8>> {
        bytes_of(self.files, alloc, path, notes)
    }

    fn reader(
        &mut self,
        alloc: Global,
        path: &str,
        notes: &Notes,
    ) -> R<HostReader<F::File, F::Reader>> {
        open_reader(self.files, alloc, path, notes)
    }

    fn ends(&mut self, alloc: Global, path: &str, notes: &Notes) -> R<Vec<u8>> {
        ends_of(self.files, alloc, path, notes)
    }

    fn is_folder(&self, path: &str) -> bool {
        is_folder(self.files, path)
    }

    fn make_folder(&mut self, alloc: Global, folder: &str, notes: &Notes) -> R<bool> {
        make_folder(self.files, alloc, folder, notes)
    }

    fn remove_folder(&mut self, folder: &str) {
        // The folder stays where something is in it.
        let _ = fs::remove_dir(self.files, folder);
    }

    fn check_root_name(&mut self, alloc: Global, folder: &str, notes: &Notes) -> R<()> {
        root_is_free(self.files, alloc, folder, notes)
    }

    fn lock<E: Write>(
        &mut self,
        folder: &str,
        access: Access,
        patience: Patience,
        err: &mut E,
        why: &mut Option<Reason>,
    ) -> R<F::File> {
        locked(self.files, folder, access, patience, err, why)
    }

    fn share<E: Write>(
        &mut self,
        alloc: Global,
        folder: &str,
        patience: Patience,
        err: &mut E,
        why: &mut Option<Reason>,
    ) -> R<Option<F::File>> {
        shared(self.files, alloc, folder, patience, err, why)
    }

    fn keep_out(&mut self, alloc: Global, folder: &str, seconds: u64) -> Readers<F::File> {
        kept_out(self.files, alloc, folder, seconds)
    }

    fn wait_out<E: Write>(
        &mut self,
        alloc: Global,
        folder: &str,
        patience: Patience,
        err: &mut E,
        why: &mut Option<Reason>,
    ) -> R<Readers<F::File>> {
        waited_out(self.files, alloc, folder, patience, err, why)
    }

    fn make_lock(&mut self, alloc: Global, folder: &str) {
        make_file(self.files, alloc, folder);
    }

    fn take(&mut self, alloc: Global, folder: &str) -> R<HostDisk<F>> {
        disk_of(self.files, alloc, folder)
    }

    // What is open is closed with the disk.
    fn give(&mut self, folder: &str, disk: HostDisk<F>) {
        let _ = folder;
        drop(disk);
    }

    fn at_folder(&self, folder: &str, follows: bool) -> io::Result<Node> {
        node_at(self.files, folder, follows)
    }

    fn in_folder(&self, alloc: Global, folder: &str, path: &str, follows: bool) -> R<Option<Node>> {
        let place = format!(in alloc; "{folder}/{path}")?;
        Ok(node_at(self.files, place.as_str(), follows).ok())
    }

    fn part(&self, alloc: Global, folder: &str, path: &str, notes: &Notes) -> R<Vec<u8>> {
        let place = format!(in alloc; "{folder}/{path}")?;
        bytes_at(self.files, alloc, place.as_str(), notes)
    }
}
