//! Making and opening a store.

ghost use Rattle.std.specs.Prelude.{◌≡◌, ◌≢◌, ◌≤◌, ◌⊎◌, ◌+◌, ◌↔◌, List, map, true, None, Err, IfOk, IfErr, OnOk, string_bytes};
ghost use Rattle.schema.specs.Keys.{KeyColumn};
ghost use Rattle.disk.specs.State.{content};
ghost use Rattle.vault.specs.Views.{root_path};
ghost use Rattle.vault.specs.Calls.{HasFailed, LeavesAll};
ghost use Rattle.footer.specs.Writing.{IsOutOfRange};
ghost use Rattle.manifest.specs.Groups.{root_of};
ghost use Rattle.recovery.specs.Sound.{IsSound};
ghost use Rattle.recovery.specs.Opening.{Cleans, IsClean};
ghost use Rattle.table.specs.Table.{empty_table};
ghost use Rattle.table.specs.State.{opened};
ghost use Rattle.table_state.specs.Promises.{WasNextKept};
ghost use Rattle.table_state.specs.Spares.{HasRoom};
ghost use Rattle.table_state.specs.Stands.{Stands};
ghost use Rattle.table_commits.specs.Cleaning.{IsTidy};
ghost use Rattle.table_openings.specs.Opening.{disk_of, AreNamedKeys, HasNoRoot, HasRoomForAll, LeavesNoneOr, LeavesTables, IsNotCreated, IsCreatable, IsOpened, IsNotOpened, LeavesAllOrCleans};

use crate::creating::{First, put_new};
use crate::laws::paths_are_apart;
use bits::Refusal;
use disk::Disk;
use footer::{WriteOptions, is_out_of_range};
use partition::key_columns;
use schema::Schema;
use std::alloc::Global;
use table_state::{Core, first_versions, started};
use vault::Vault;

/// Makes an empty table whose key columns have these names, in this order, and opens it.
///
/// What is said of the disk holds where it is honest and no stop leaves a file where a folder of the table belongs.
/// Refused Key for columns that cannot partition, Exists where a root is there, which stays, and Limit for options out
/// of range or a root that is too heavy, in this order; Device, InDoubt where the disk failed, and Memory. The disk is
/// handed back.
pub fn create<D: Disk>(
    alloc: Global,
    disk: D,
    schema: Schema,
    names: &[String],
    options: WriteOptions,
) -> Result<Core<D>, (D, Refusal)>
    ensures created { (D.state disk).honest → (keys : List KeyColumn) → AreNamedKeys schema (map string_bytes names.now) keys → HasRoom keys (D.state disk)
        → IfOk result (λ store. Stands D.state store (opened options (empty_table schema keys))) }
    // A stop within the call leaves no root or the empty table.
    ensures moments { (D.state disk).honest → (keys : List KeyColumn) → AreNamedKeys schema (map string_bytes names.now) keys → HasRoom keys (D.state disk) → HasNoRoot (D.state disk)
        → LeavesNoneOr (empty_table schema keys) (D.state disk) (D.state (disk_of result)) }
    // After a refusal other than InDoubt a stop leaves no root.
    ensures refused { (D.state disk).honest → HasNoRoot (D.state disk) → IfErr result (λ e. e.1 ≢ Refusal.InDoubt → HasNoRoot (D.state e.0)) }
    // There is still room for the table's part files, so the table can be made once more.
    ensures room { (D.state disk).honest → (keys : List KeyColumn) → AreNamedKeys schema (map string_bytes names.now) keys → HasRoom keys (D.state disk) → HasRoom keys (D.state (disk_of result)) }
    ensures asked { (D.state disk).honest → OnOk result (IsCreatable schema (map string_bytes names.now) options (D.state disk)) }
    ensures which { (D.state disk).honest → IfErr result (λ e. IsNotCreated schema (map string_bytes names.now) options (D.state disk) e.1) }
    // A root that is there stays, with all else.
    ensures unchanged { (D.state disk).honest → content (D.state disk).seen root_path ≢ None → LeavesAll (D.state disk) (D.state (disk_of result)) }
    ensures cause { (D.state disk).honest → (keys : List KeyColumn) → AreNamedKeys schema (map string_bytes names.now) keys → HasRoom keys (D.state disk)
        → IfErr result (λ e. (e.1 ≡ Refusal.Device) ⊎ (e.1 ≡ Refusal.InDoubt) → HasFailed (D.state disk) (D.state e.0)) }
    // InDoubt comes only after a next root was whole in whatever a stop could leave.
    ensures in_doubt { (D.state disk).honest → IfErr result (λ e. e.1 ≡ Refusal.InDoubt → WasNextKept (D.state disk) (D.state e.0)) }
    ensures counts { (D.state disk).failures ≤ (D.state (disk_of result)).failures }
    ensures honest { (D.state disk).honest ↔ (D.state (disk_of result)).honest }
{
    // For the proof: what the store shows besides its table, and that the fields have names of their own.
    paths_are_apart();
    manifest::a_root_means_one_table();
    manifest::rows_of_parts_fit();
    let _ = schema.leaves();
    let keys = match key_columns(alloc, &schema, names) {
        Ok(keys) => keys,
        Err(e) => return Err((disk, e)),
    };
    let mut vault = Vault::start(disk);
    match put_new(alloc, &mut vault, schema, keys, &options) {
        Ok(
            First {
                manifest,
                versions,
                ..
            },
        ) => Ok(started(alloc, vault, options, manifest, versions, false, false)),
        Err(e) => Err((vault.into_disk(), e)),
    }
}

/// Opens the table that a disk holds, and cleans away what no root names.
///
/// What is said of the disk holds where it is honest, sound, and has room; it is so after a stop. Refused Limit for
/// options out of range, before the disk is touched; for what stands in `_metadata`; Device where the disk failed, and
/// Memory. The disk is handed back, and a stop leaves the tables that it could leave before. On any honest disk a refused
/// opening changes nothing, but for the cleaning where memory ran out after it.
pub fn open<D: Disk>(alloc: Global, disk: D, options: WriteOptions) -> Result<Core<D>, (D, Refusal)>
    ensures found { (D.state disk).honest → IsSound (D.state disk) → HasRoomForAll (D.state disk) → IfOk result (IsOpened D.state (D.state disk) options) }
    // A stop at any moment of the opening leaves a table that one before it could have left.
    ensures moments { (D.state disk).honest → IsSound (D.state disk) → HasRoomForAll (D.state disk) → LeavesTables (D.state disk) (D.state (disk_of result)) }
    ensures sound { (D.state disk).honest → IsSound (D.state disk) → HasRoomForAll (D.state disk) → IsSound (D.state (disk_of result)) }
    ensures room { (D.state disk).honest → IsSound (D.state disk) → HasRoomForAll (D.state disk) → HasRoomForAll (D.state (disk_of result)) }
    ensures refused { (D.state disk).honest → IsSound (D.state disk) → HasRoomForAll (D.state disk)
        → IfErr result (λ e. (e.1 ≡ Refusal.Memory) ⊎ ((e.1 ≡ Refusal.Device) ⊎ ((e.1 ≡ Refusal.Limit) × IsOutOfRange options))) }
    ensures options { IsOutOfRange options → result ≡ Err (disk, Refusal.Limit) }
    // An opening is refused for its options, for the root that the disk reads or lacks, for the disk, or for memory.
    ensures which { (D.state disk).honest → IfErr result (λ e. IsNotOpened options (content (D.state disk).seen root_path) e.1) }
    ensures there { (D.state disk).honest → OnOk result (content (D.state disk).seen root_path ≢ None) }
    ensures cause { (D.state disk).honest → IfErr result (λ e. e.1 ≡ Refusal.Device → HasFailed (D.state disk) (D.state e.0)) }
    // Refused, nothing has changed; but where memory ran out after the cleaning, what the root does not name may be gone.
    ensures unchanged { (D.state disk).honest → IfErr result (λ e. LeavesAllOrCleans (D.state disk) (D.state e.0) e.1) }
    // Files other than part files that the root does not name, and the next root, are left alone.
    ensures removes { (D.state disk).honest → IfOk result (λ store. Cleans (root_of store.manifest) (D.state disk) (D.state store.vault.disk)) }
    ensures clean { (D.state disk).honest → IfOk result (λ store. store.clean ≡ true → IsClean (root_of store.manifest) (D.state store.vault.disk)) }
    // No part file is left that nothing needs, unless the cleaning met a fault.
    ensures tidy { (D.state disk).honest → IsSound (D.state disk) → HasRoomForAll (D.state disk) → IfOk result (λ store. IsTidy D.state store) }
    ensures reads { (D.state (disk_of result)).reads ≤ (D.state disk).reads + 1 }
    ensures counts { (D.state disk).failures ≤ (D.state (disk_of result)).failures }
    ensures honest { (D.state disk).honest ↔ (D.state (disk_of result)).honest }
{
    // For the proof: what the store shows besides its table, and that an image is at most one table, whose rows fit it.
    paths_are_apart();
    manifest::a_root_means_one_table();
    manifest::tables_are_one();
    manifest::rows_of_parts_fit();
    if is_out_of_range(&options) {
        return Err((disk, Refusal::Limit));
    }
    match recovery::open(alloc, disk) {
        Ok((vault, manifest, has_fault)) => match first_versions(alloc, &manifest) {
            Ok(versions) => Ok(started(
                alloc, vault, options, manifest, versions, !has_fault, false,
            )),
            Err(e) => Err((vault.into_disk(), e)),
        },
        Err(e) => Err(e),
    }
}

/// Opens the table that a disk holds to read it, as [`open`] does but for the cleaning: no file is removed, and nothing that is
/// read changes. So it can be done beside a program that writes. The store keeps what is replaced
/// ([`Core::keep_replaced`]).
pub fn open_to_read<D: Disk>(
    alloc: Global,
    disk: D,
    options: WriteOptions,
) -> Result<Core<D>, (D, Refusal)>
    ensures found { (D.state disk).honest → IsSound (D.state disk) → HasRoomForAll (D.state disk) → IfOk result (IsOpened D.state (D.state disk) options) }
    // A stop at any moment of the opening leaves a table that one before it could have left.
    ensures moments { (D.state disk).honest → IsSound (D.state disk) → HasRoomForAll (D.state disk) → LeavesTables (D.state disk) (D.state (disk_of result)) }
    ensures sound { (D.state disk).honest → IsSound (D.state disk) → HasRoomForAll (D.state disk) → IsSound (D.state (disk_of result)) }
    ensures room { (D.state disk).honest → IsSound (D.state disk) → HasRoomForAll (D.state disk) → HasRoomForAll (D.state (disk_of result)) }
    ensures refused { (D.state disk).honest → IsSound (D.state disk) → HasRoomForAll (D.state disk)
        → IfErr result (λ e. (e.1 ≡ Refusal.Memory) ⊎ ((e.1 ≡ Refusal.Device) ⊎ ((e.1 ≡ Refusal.Limit) × IsOutOfRange options))) }
    ensures options { IsOutOfRange options → result ≡ Err (disk, Refusal.Limit) }
    // An opening is refused for its options, for the root that the disk reads or lacks, for the disk, or for memory.
    ensures which { (D.state disk).honest → IfErr result (λ e. IsNotOpened options (content (D.state disk).seen root_path) e.1) }
    ensures there { (D.state disk).honest → OnOk result (content (D.state disk).seen root_path ≢ None) }
    ensures cause { (D.state disk).honest → IfErr result (λ e. e.1 ≡ Refusal.Device → HasFailed (D.state disk) (D.state e.0)) }
    // Whatever is returned, each image has all files that it had, at every moment, and nothing that is read has changed.
    ensures unchanged { (D.state disk).honest → LeavesAll (D.state disk) (D.state (disk_of result)) }
    ensures keeps { IfOk result (λ store. store.keeps ≡ true) }
    ensures reads { (D.state (disk_of result)).reads ≤ (D.state disk).reads + 1 }
    ensures counts { (D.state disk).failures ≤ (D.state (disk_of result)).failures }
    ensures honest { (D.state disk).honest ↔ (D.state (disk_of result)).honest }
{
    // For the proof: what the store shows besides its table, and that an image is at most one table, whose rows fit it.
    paths_are_apart();
    manifest::a_root_means_one_table();
    manifest::tables_are_one();
    manifest::rows_of_parts_fit();
    if is_out_of_range(&options) {
        return Err((disk, Refusal::Limit));
    }
    match recovery::open_to_read(alloc, disk) {
        Ok((vault, manifest)) => match first_versions(alloc, &manifest) {
            Ok(versions) => Ok(started(alloc, vault, options, manifest, versions, false, true)),
            Err(e) => Err((vault.into_disk(), e)),
        },
        Err(refused) => Err(refused),
    }
}
