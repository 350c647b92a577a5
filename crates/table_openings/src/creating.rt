//! The first root of a table.

ghost use Rattle.std.specs.Prelude.{◌≡◌, ◌≢◌, ◌⊎◌, ◌≤◌, ◌↔◌, None, Err, IfOk, IfErr, OnOk};
ghost use Rattle.bits.specs.Refusals.{RefusedOnly};
ghost use Rattle.schema.specs.Keys.{AreKeys, key_columns_view};
ghost use Rattle.disk.specs.State.{content};
ghost use Rattle.vault.specs.Views.{root_path};
ghost use Rattle.vault.specs.Calls.{HasFailed, LeavesAll};
ghost use Rattle.footer.specs.Writing.{IsOutOfRange};
ghost use Rattle.table.specs.Table.{empty_table};
ghost use Rattle.table.specs.Weights.{IsRootTooMuch};
ghost use Rattle.table_state.specs.Promises.{WasNextKept};
ghost use Rattle.table_state.specs.Spares.{HasRoom};
ghost use Rattle.table_openings.specs.Opening.{HasNoRoot, LeavesNoneOr};
ghost use Rattle.table_openings.specs.Creating.{IsFirst, IsFirstOn, IsNotNew, IsNotPut, IsNotFirst};

use crate::laws::{heavy_roots_are_too_much, paths_are_apart};
use bits::{R, Refusal};
use disk::Disk;
use footer::{WriteOptions, is_out_of_range};
use manifest::Manifest;
use schema::{KeyColumn, Schema};
use snapshots::Snapshots;
use std::alloc::Global;
use table_state::first_versions;
use vault::Vault;

/// A new table: its description, the bytes of its root, and its versions.
#[derive(Drop)]
pub struct First {
    pub manifest: Manifest,
    pub root: Vec<u8>,
    pub versions: Snapshots,
}

/// Makes a table without rows, where none is. Refused Exists where a root is there, and Limit for options out of range
/// or a root that is too heavy, in this order; Device, InDoubt where the disk failed, and Memory.
pub(crate) fn put_new<D: Disk>(
    alloc: Global,
    vault: &mut Vault<D>,
    schema: Schema,
    keys: Vec<KeyColumn>,
    options: &WriteOptions,
) -> R<First>
    requires { AreKeys (key_columns_view keys.items) schema }
    ensures made { (D.state vault.old.disk).honest → IfOk result (λ first. IsFirstOn schema (key_columns_view keys.items) first (D.state vault.new.disk)) }
    ensures absent { (D.state vault.old.disk).honest → OnOk result (content (D.state vault.old.disk).seen root_path ≡ None) }
    ensures in_range { OnOk result (IsOutOfRange options.now → ⊥) }
    ensures moments { (D.state vault.old.disk).honest → HasRoom (key_columns_view keys.items) (D.state vault.old.disk) → HasNoRoot (D.state vault.old.disk)
        → LeavesNoneOr (empty_table schema (key_columns_view keys.items)) (D.state vault.old.disk) (D.state vault.new.disk) }
    ensures refused { (D.state vault.old.disk).honest → HasNoRoot (D.state vault.old.disk) → IfErr result (λ e. e ≢ Refusal.InDoubt → HasNoRoot (D.state vault.new.disk)) }
    ensures room { (D.state vault.old.disk).honest → HasRoom (key_columns_view keys.items) (D.state vault.old.disk) → HasRoom (key_columns_view keys.items) (D.state vault.new.disk) }
    ensures which { (D.state vault.old.disk).honest → IfErr result (IsNotFirst options.now (empty_table schema (key_columns_view keys.items)) (D.state vault.old.disk)) }
    ensures unchanged { (D.state vault.old.disk).honest → content (D.state vault.old.disk).seen root_path ≢ None → LeavesAll (D.state vault.old.disk) (D.state vault.new.disk) }
    ensures cause { (D.state vault.old.disk).honest → HasRoom (key_columns_view keys.items) (D.state vault.old.disk)
        → IfErr result (λ e. (e ≡ Refusal.Device) ⊎ (e ≡ Refusal.InDoubt) → HasFailed (D.state vault.old.disk) (D.state vault.new.disk)) }
    ensures in_doubt { (D.state vault.old.disk).honest → IfErr result (λ e. e ≡ Refusal.InDoubt → WasNextKept (D.state vault.old.disk) (D.state vault.new.disk)) }
    ensures counts { (D.state vault.old.disk).failures ≤ (D.state vault.new.disk).failures }
    ensures honest { (D.state vault.old.disk).honest ↔ (D.state vault.new.disk).honest }
{
    match check_new(alloc, vault, options) {
        Ok(()) => put_first(alloc, vault, schema, keys),
        Err(e) => Err(e),
    }
}

/// Whether a table can be made where the vault is. Refused Exists where a root is there, Limit for options out of range;
/// Device where the disk failed, and Memory. Nothing changes.
fn check_new<D: Disk>(alloc: Global, vault: &mut Vault<D>, options: &WriteOptions) -> R<()>
    ensures unchanged { (D.state vault.old.disk).honest → LeavesAll (D.state vault.old.disk) (D.state vault.new.disk) }
    ensures absent { (D.state vault.old.disk).honest → OnOk result (content (D.state vault.old.disk).seen root_path ≡ None) }
    ensures in_range { OnOk result (IsOutOfRange options.now → ⊥) }
    ensures which { (D.state vault.old.disk).honest → IfErr result (IsNotNew options.now (D.state vault.old.disk)) }
    ensures device { IfErr result (λ e. e ≢ Refusal.InDoubt) }
    ensures cause { IfErr result (λ e. e ≡ Refusal.Device → HasFailed (D.state vault.old.disk) (D.state vault.new.disk)) }
    ensures told { OnOk result ((D.state vault.new.disk).failures ≡ (D.state vault.old.disk).failures) }
    ensures counts { (D.state vault.old.disk).failures ≤ (D.state vault.new.disk).failures }
    ensures honest { (D.state vault.old.disk).honest ↔ (D.state vault.new.disk).honest }
{
    if vault.root(alloc)?.is_some() {
        return Err(Refusal::Exists);
    }
    if is_out_of_range(options) {
        return Err(Refusal::Limit);
    }
    Ok(())
}

/// Puts the root of a table without rows: all growths, then the swap. Refused Limit where it is too heavy; Device and
/// InDoubt where the disk failed, and Memory.
fn put_first<D: Disk>(
    alloc: Global,
    vault: &mut Vault<D>,
    schema: Schema,
    keys: Vec<KeyColumn>,
) -> R<First>
    requires { AreKeys (key_columns_view keys.items) schema }
    ensures made { (D.state vault.old.disk).honest → IfOk result (λ first. IsFirstOn schema (key_columns_view keys.items) first (D.state vault.new.disk)) }
    ensures moments { (D.state vault.old.disk).honest → HasRoom (key_columns_view keys.items) (D.state vault.old.disk) → HasNoRoot (D.state vault.old.disk)
        → LeavesNoneOr (empty_table schema (key_columns_view keys.items)) (D.state vault.old.disk) (D.state vault.new.disk) }
    ensures refused { (D.state vault.old.disk).honest → HasNoRoot (D.state vault.old.disk) → IfErr result (λ e. e ≢ Refusal.InDoubt → HasNoRoot (D.state vault.new.disk)) }
    ensures room { (D.state vault.old.disk).honest → HasRoom (key_columns_view keys.items) (D.state vault.old.disk) → HasRoom (key_columns_view keys.items) (D.state vault.new.disk) }
    ensures which { IfErr result (IsNotPut (empty_table schema (key_columns_view keys.items))) }
    ensures cause { (D.state vault.old.disk).honest → HasRoom (key_columns_view keys.items) (D.state vault.old.disk)
        → IfErr result (λ e. (e ≡ Refusal.Device) ⊎ (e ≡ Refusal.InDoubt) → HasFailed (D.state vault.old.disk) (D.state vault.new.disk)) }
    ensures in_doubt { (D.state vault.old.disk).honest → IfErr result (λ e. e ≡ Refusal.InDoubt → WasNextKept (D.state vault.old.disk) (D.state vault.new.disk)) }
    ensures counts { (D.state vault.old.disk).failures ≤ (D.state vault.new.disk).failures }
    ensures honest { (D.state vault.old.disk).honest ↔ (D.state vault.new.disk).honest }
{
    // For the proof: where the part files can stand is not where the root's two names are.
    paths_are_apart();
    match make_first(alloc, schema, keys) {
        Ok(first) => match vault.swap_root(first.root.as_slice()) {
            Ok(()) => Ok(first),
            Err(e) => Err(e),
        },
        Err(e) => Err(e),
    }
}

/// A table without rows, ready to be put. Refused Limit where its root is too heavy, and Memory.
fn make_first(alloc: Global, schema: Schema, keys: Vec<KeyColumn>) -> R<First>
    requires { AreKeys (key_columns_view keys.items) schema }
    ensures made { IfOk result (IsFirst schema (key_columns_view keys.items)) }
    ensures limit { result ≡ Err Refusal.Limit → IsRootTooMuch (empty_table schema (key_columns_view keys.items)) }
    ensures which { RefusedOnly (λ e. e ≡ Refusal.Limit) result }
{
    heavy_roots_are_too_much();
    let manifest = Manifest::new(alloc, schema, keys)?;
    let root = manifest.to_bytes(alloc)?;
    let versions = first_versions(alloc, &manifest)?;
    Ok(First {
        manifest,
        root,
        versions,
    })
}
