//! A table made in a folder.

ghost use Rattle.std.specs.Prelude.{◌≡◌, ⊤, false, map, string_bytes, OnOk, IfOk, IsTrue};
ghost use Rattle.places.specs.Places.{StaysBut, StaysKnown, InFolder};
ghost use Rattle.commands.specs.Creating.{OnlyLooks, CreatesOn, MakesTable, InNewFolder, Creates};
ghost use Rattle.commands.specs.Calls.{state_within, disk_within};
ghost use Rattle.commands.specs.Tasks.{lent_texts};

use crate::making::Making;
use crate::remarks::schema_in;
use crate::tasks::found;
use crate::texts::owned;
use answers::without_root;
use bits::{R, Refusal};
use call_reasons::{schema_reason, table_reason};
use disk::Disk;
use manifest::Manifest;
use partition::key_columns;
use places::{Access, Places, Reason};
use reasons::options_fault;
use schema::{Schema, a_list_means_one_schema, a_schema_is_its_elements};
use std::alloc::Global;
use std::io::Write;
use upkeep::leftovers;
use vault::Vault;

impl<S: Write + Clone + Drop> Making<'_, S> {
    /// Makes a table in the folder, which is made where nothing is there; then it is taken away again where the table is
    /// refused.
    pub(crate) fn make_table<P: Places, E: Write>(
        &self,
        places: &mut P,
        bytes: &[u8],
        keys: &[&str],
        err: &mut E,
        why: &mut Option<Reason>,
    ) -> R<()>
        ensures creates { Creates (state_within P.Disk.state) (disk_within {D = P.Disk} {S = S}) (P.known places.old) (P.known places.new)
            self.now.call.now.folder.now self.now.call.now.options bytes.now (lent_texts keys.now) result }
        ensures quiet { self.now.terminals.err ≡ false → E.contents err.new ≡ E.contents err.old }
    {
        let alloc = self.alloc;
        let schema = match schema_in(alloc, bytes) {
            Ok(schema) => schema,
            Err(refusal) => {
                *why = found(schema_reason(alloc, bytes));
                return Err(refusal);
            }
        };
        let texts = owned(alloc, keys)?;
        let names = texts.as_slice();
        match key_columns(alloc, &schema, names) {
            Ok(_) => self.make_table_of(places, &schema, names, err, why),
            Err(refusal) => {
                *why = found(table_reason(alloc, &schema, names, &refusal));
                Err(refusal)
            }
        }
    }

    /// Makes a table of this schema and these keys in the folder, which is made where nothing is there, and locked.
    fn make_table_of<P: Places, E: Write>(
        &self,
        places: &mut P,
        schema: &Schema,
        keys: &[String],
        err: &mut E,
        why: &mut Option<Reason>,
    ) -> R<()>
        ensures comes { InNewFolder (disk_within {D = P.Disk} {S = S}) (P.known places.old) (P.known places.new) self.now.call.now.folder.now
            (MakesTable (state_within P.Disk.state) self.now.call.now.options schema.now (map string_bytes keys.now)) result }
        ensures quiet { self.now.terminals.err ≡ false → E.contents err.new ≡ E.contents err.old }
    {
        let folder = self.call.folder;
        let is_new = places.make_folder(self.alloc, folder, self.notes)?;
        match places.lock(folder, Access::Writes, self.patience(), err, why) {
            Ok(lock) => {
                let made = self.make_table_alone(places, schema, keys, err, why);
                self.unmake_folder(places, is_new, &made);
                drop(lock);
                made
            }
            Err(refusal) => {
                let made = Err(refusal);
                self.unmake_folder(places, is_new, &made);
                made
            }
        }
    }

    /// Takes the folder away where it is new and no table was made in it. It stays where something is in it.
    fn unmake_folder<P: Places>(&self, places: &mut P, is_new: bool, made: &R<()>)
        ensures others { StaysBut self.now.call.now.folder.now (P.known places.old) (P.known places.new) }
        ensures kept { OnOk made.now (StaysKnown (P.known places.old) (P.known places.new)) }
        ensures stays { is_new ≡ false → StaysKnown (P.known places.old) (P.known places.new) }
    {
        if is_new && made.is_err() {
            places.remove_folder(self.call.folder);
        }
    }

    /// Makes a table in the folder, which is there and locked, once nobody reads there: numbers of groups begin anew with the
    /// table, and who reads an earlier one of this folder may still need files of theirs. Then there is a file for readers to
    /// lock.
    fn make_table_alone<P: Places, E: Write>(
        &self,
        places: &mut P,
        schema: &Schema,
        keys: &[String],
        err: &mut E,
        why: &mut Option<Reason>,
    ) -> R<()>
        ensures comes { InFolder (disk_within {D = P.Disk} {S = S}) (P.known places.old) (P.known places.new) self.now.call.now.folder.now
            (MakesTable (state_within P.Disk.state) self.now.call.now.options schema.now (map string_bytes keys.now)) ⊤ result }
        ensures quiet { self.now.terminals.err ≡ false → E.contents err.new ≡ E.contents err.old }
    {
        let readers = places.wait_out(self.alloc, self.call.folder, self.patience(), err, why)?;
        let made = self.make_table_in_folder(places, schema, keys, why);
        drop(readers);
        made
    }

    /// Makes a table in the folder, which is there, and then the file that readers lock. Refused Exists also where part files are in
    /// the folder that a new table would remove, and Device where a folder has the name of the root.
    fn make_table_in_folder<P: Places>(
        &self,
        places: &mut P,
        schema: &Schema,
        keys: &[String],
        why: &mut Option<Reason>,
    ) -> R<()>
        ensures { InFolder (disk_within {D = P.Disk} {S = S}) (P.known places.old) (P.known places.new) self.now.call.now.folder.now
            (MakesTable (state_within P.Disk.state) self.now.call.now.options schema.now (map string_bytes keys.now)) ⊤ result }
    {
        places.check_root_name(self.alloc, self.call.folder, self.notes)?;
        let disk = self.take(places, false)?;
        let (disk, made) = self.make_table_on(disk, schema, keys, why);
        self.give(places, disk);
        self.make_lock(places, &made);
        made
    }

    /// Makes the file that readers lock, where a table was made.
    fn make_lock<P: Places>(&self, places: &mut P, made: &R<()>)
        ensures { StaysKnown (P.known places.old) (P.known places.new) }
    {
        if made.is_ok() {
            places.make_lock(self.alloc, self.call.folder);
        }
    }

    /// Makes a table on a disk, which is handed back. Refused Exists also where part files are on it that a new table would remove.
    fn make_table_on<D: Disk>(
        &self,
        disk: D,
        schema: &Schema,
        keys: &[String],
        why: &mut Option<Reason>,
    ) -> (D, R<()>)
        ensures { MakesTable D.state self.now.call.now.options schema.now (map string_bytes keys.now) disk result.0 result.1 }
    {
        let mut vault = Vault::start(disk);
        match self.free_schema(&mut vault, schema, keys, why) {
            Ok(own) => self.create_on(vault.into_disk(), own, schema, keys, why),
            Err(refusal) => (vault.into_disk(), Err(refusal)),
        }
    }

    /// Makes a table of `own`, which is the schema, on a disk. The disk is handed back.
    fn create_on<D: Disk>(
        &self,
        disk: D,
        own: Schema,
        schema: &Schema,
        keys: &[String],
        why: &mut Option<Reason>,
    ) -> (D, R<()>)
        ensures { CreatesOn D.state self.now.call.now.options own (map string_bytes keys.now) disk result.0 result.1 }
    {
        let alloc = self.alloc;
        match store::create(alloc, disk, own, keys, self.call.options) {
            Ok(store) => (store.into_disk(), Ok(())),
            Err((disk, refusal)) => {
                *why = self.no_table_reason(schema, keys, &refusal);
                (disk, Err(refusal))
            }
        }
    }

    /// Why a table of this schema and these keys cannot be made, where there is more to say than the refusal.
    fn no_table_reason(
        &self,
        schema: &Schema,
        keys: &[String],
        refusal: &Refusal,
    ) -> Option<Reason> {
        if *refusal == Refusal::Limit && !self.has_options_fault() {
            Some(wide_root(schema))
        } else {
            found(table_reason(self.alloc, schema, keys, refusal))
        }
    }

    /// The schema, once more, for a table that can be made on a disk. Refused Exists where part files are on it that the table would
    /// remove. Nothing that is read changes.
    fn free_schema<D: Disk>(
        &self,
        vault: &mut Vault<D>,
        schema: &Schema,
        keys: &[String],
        why: &mut Option<Reason>,
    ) -> R<Schema>
        ensures same { IfOk result (λ own. own ≡ schema.now) }
        ensures looks { OnlyLooks (D.state vault.old.disk) (D.state vault.new.disk) }
    {
        a_schema_is_its_elements();
        a_list_means_one_schema();
        // For the proof: this is a schema.
        let _ = schema.leaves();
        if let Some(path) = loose_part(self.alloc, vault, schema, keys)? {
            *why = Some(Reason::LoosePart(path));
            return Err(Refusal::Exists);
        }
        Schema::new(self.alloc, schema.elements())
    }

    /// Whether an option of the call is out of its range.
    fn has_options_fault(&self) -> bool {
        let options = &self.call.options;
        options_fault(options.group_rows, options.page_rows, options.page_version).is_some()
    }
}

/// That a schema is too much for a root.
fn wide_root(schema: &Schema) -> Reason {
    let mut bytes: u64 = 0;
    for element in without_root(schema) {
        bytes = bytes.saturating_add(element.name.len() as u64);
    }
    Reason::WideRoot {
        columns: schema.leaves().len(),
        bytes,
    }
}

/// A part file in a folder that a table of these keys would be made in: it would remove it. None where there is none, or a root
/// is there.
fn loose_part<D: Disk>(
    alloc: Global,
    vault: &mut Vault<D>,
    schema: &Schema,
    names: &[String],
) -> R<Option<String>>
    ensures { OnlyLooks (D.state vault.old.disk) (D.state vault.new.disk) }
{
    if vault.root(alloc)?.is_some() {
        return Ok(None);
    }
    let schema = Schema::new(alloc, schema.elements())?;
    let keys = key_columns(alloc, &schema, names)?;
    let table = Manifest::new(alloc, schema, keys)?;
    let mut paths = leftovers(alloc, vault, &table)?;
    Ok(paths.pop())
}
