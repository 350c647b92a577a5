//! Tests of the crates of a dataset, from the disk to the program, that no line of text can say: a real folder, a host whose files
//! fail, a disk that keeps nothing, a caller that knows a disk by its trait alone, outputs that take nothing, how a version fills
//! its blocks, files that come back, and what is printed of thousands of groups. All other cases are lines of `disk_cases`,
//! `store_cases` and `call_cases`.
//!
//! A test is a table of calls with what each must return, or one helper that returns whether all is as it should be.
#![tactic(auto)]

#[cfg(test)]
mod closed_outputs;
#[cfg(test)]
mod fake;
#[cfg(test)]
mod faulty_files;
#[cfg(test)]
mod foreign_names;
#[cfg(test)]
mod full_disks;
#[cfg(test)]
mod groups;
#[cfg(test)]
mod host_folders;
#[cfg(test)]
mod last_failures;
#[cfg(test)]
mod links;
#[cfg(test)]
mod modes;
#[cfg(test)]
mod new_files;
#[cfg(test)]
mod odd_names;
#[cfg(test)]
mod real_folders;
#[cfg(test)]
mod rows;
#[cfg(test)]
mod surveyed_tables;
#[cfg(test)]
mod swapping_files;
#[cfg(test)]
mod vault_calls;
#[cfg(test)]
mod vault_on_a_folder;
#[cfg(test)]
mod versions;
#[cfg(test)]
mod versions_in_use;
