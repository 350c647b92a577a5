//! The order of the disk's calls, and what is returned where one of them fails. What they leave of a disk is proved.

use crate::fake::Fake;
use bits::Refusal;
use disk::Disk;
use std::alloc::Global;
use vault::Vault;

const PUT: &str = "remove k=a/l=b/part.0.parquet
make_folder k=a
make_folder k=a/l=b
create k=a/l=b/part.0.parquet
append k=a/l=b/part.0.parquet
sync k=a/l=b/part.0.parquet
sync_folder k=a/l=b
sync_folder k=a
sync_folder 
";

const SWAP: &str = "remove _metadata.new
create _metadata.new
append _metadata.new
sync _metadata.new
sync_folder 
rename _metadata.new
sync_folder 
";

const READS: &str = "remove part.0.parquet
read_range _metadata
read_range part.1.parquet
sync_folder 
";

/// Whether the log has the calls up to the one of this number; all of them where it is 0.
fn is_up_to(log: &str, calls: &str, number: u64) -> bool {
    let count = log.lines().count() as u64;
    calls.starts_with(log) && (count == number || number == 0 && log.len() == calls.len())
}

/// Whether a put into two folders makes its calls up to the one that fails, or all where that is 0.
fn is_put_up_to(alloc: Global, fails_at: u64) -> bool {
    let mut vault = Vault::start(Fake::new(alloc, fails_at));
    let answer = vault.put("k=a/l=b/part.0.parquet", &[1, 2, 3]);
    let wanted = if fails_at == 0 {
        Ok(())
    } else {
        Err(Refusal::Device)
    };
    answer == wanted
        && is_up_to(vault.disk().log.as_str(), PUT, fails_at)
        && vault.disk().failures() == fails_at.min(1)
}

#[test]
fn a_put_into_two_folders_syncs_all_of_them_and_ends_at_a_failure(rt: HostRuntime) {
    for fails_at in 0..10 {
        assert!(rt; is_put_up_to(rt.alloc(), fails_at), "at {fails_at}");
    }
}

/// Whether a swap makes its calls up to the one that fails, and is in doubt from the sixth on, the rename.
fn is_swap_up_to(alloc: Global, fails_at: u64) -> bool {
    let mut vault = Vault::start(Fake::new(alloc, fails_at));
    let answer = vault.swap_root(&[1, 2, 3]);
    let wanted = match fails_at {
        0 => Ok(()),
        1..=5 => Err(Refusal::Device),
        _ => Err(Refusal::InDoubt),
    };
    answer == wanted && is_up_to(vault.disk().log.as_str(), SWAP, fails_at)
}

#[test]
fn a_swap_is_in_doubt_from_the_rename_on(rt: HostRuntime) {
    for fails_at in 0..8 {
        assert!(rt; is_swap_up_to(rt.alloc(), fails_at), "at {fails_at}");
    }
}

/// How many bytes a range or a root has.
fn length_of(bytes: Vec<u8>) -> usize {
    bytes.len()
}

/// Whether the calls that read are made by one call of the disk each, of which the third fails.
fn are_reads_one_each(alloc: Global) -> bool {
    let mut vault = Vault::start(Fake::new(alloc, 3));
    let is_adopted = vault.adopt("part.1.parquet").is_ok();
    let is_gone = vault.forget("part.0.parquet").is_ok();
    let root = vault.root(alloc).unwrap_or(None).map(length_of);
    let part = vault
        .get_range(alloc, "part.1.parquet", 0, 9)
        .map(length_of);
    let is_settled = vault.settle().is_ok();
    is_adopted
        && is_gone
        && is_settled
        && root == Some(1)
        && part == Err(Refusal::Device)
        && vault.disk().log.as_str() == READS
        && vault.disk().failures() == 1
        && vault.disk().reads() == 2
}

#[test]
fn reads_take_one_read_range_and_a_name_that_is_gone_is_no_fault(rt: HostRuntime) {
    assert!(rt; are_reads_one_each(rt.alloc()));
}
