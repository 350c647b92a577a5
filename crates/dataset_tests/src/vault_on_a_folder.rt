//! A vault over a real folder.

use crate::host_folders::{host_disk, own_folder};
use bits::R;
use disk::HostDisk;
use std::fs;
use std::test::*;
use vault::Vault;

type HostVault = Vault<HostDisk<HostRuntime>>;

/// Puts two files, swaps the root twice, and lets the second file go.
fn fill(vault: &mut HostVault) -> R<()> {
    vault.put("k=a/l=b/part.0.parquet", b"rows")?;
    vault.put("part.1.parquet", b"more rows")?;
    vault.swap_root(b"first")?;
    vault.swap_root(b"second")?;
    vault.forget("part.1.parquet")
}

/// Whether the first file and the second root are found, and the second file is not.
fn is_found(rt: &HostRuntime, vault: &mut HostVault) -> R<bool> {
    let alloc = rt.alloc();
    let part = vault.get_range(alloc, "k=a/l=b/part.0.parquet", 0, 9)?;
    let root = vault.root(alloc)?;
    Ok(
        part.as_slice() == b"rows".as_slice()
            && root.is_some_and(|root| root.as_slice() == b"second".as_slice())
            && vault.get_range(alloc, "part.1.parquet", 0, 9).is_err(),
    )
}

#[test]
fn what_is_put_and_swapped_in_a_real_folder_is_found_again(rt: HostRuntime) -> Result<(), Fail> {
    let folder = own_folder(&rt, "vault")?;
    let mut vault = Vault::start(host_disk(&rt, folder.as_str())?);
    fill(&mut vault)?;
    // As a program that starts finds it.
    let mut found = Vault::start(host_disk(&rt, folder.as_str())?);
    assert!(rt; is_found(&rt, &mut found)?);
    fs::remove_dir_all(&rt, folder.as_str())?;
    Ok(())
}
