//! Lines, and blocks of lines that are stopped.

use crate::host::Host;
use crate::images::left;
use crate::lines::made;
use crate::stops::stops;
use bits::R;
use case_words::is_remark;
use mem_disk::MemDisk;
use std::alloc::Global;
use vault::Vault;

/// The line as it is printed: with what both disks give, or with what the disk in memory gives and the host, if it gives anything
/// else.
fn printed(alloc: Global, shown: &str, text: &str, host: Option<String>) -> R<String> {
    let gap = if text.starts_with(' ') { "" } else { " " };
    match host {
        Some(host) if host.as_str() == text => Ok(format!(in alloc; "{shown} =={gap}{text}")?),
        Some(host) => {
            let host = host.as_str().trim_start();
            Ok(format!(in alloc; "{shown} ={gap}{text}, on the host {host}")?)
        }
        None => Ok(format!(in alloc; "{shown} ={gap}{text}")?),
    }
}

/// What stands between two lines: the vault, the same on a host while it holds what the vault's disk holds, and the lines of a
/// block that has not ended.
#[derive(Drop)]
pub struct Script {
    vault: Vault<MemDisk>,
    host: Option<Host>,
    block: Option<Vec<String>>,
}

impl Script {
    /// A vault on an empty disk.
    pub fn new(alloc: Global) -> Script {
        Script {
            vault: Vault::start(MemDisk::new(alloc)),
            host: None,
            block: None,
        }
    }

    /// What is printed of a line; `shown` is the line as it is printed.
    pub fn feed(&mut self, alloc: Global, line: &str, shown: &str) -> R<String> {
        if self.block.is_some() {
            return self.feed_block(alloc, line, shown);
        }
        if line.starts_with("stops ") {
            let mut lines = Vec::new(alloc);
            lines.push(String::from_str(alloc, line)?)?;
            self.block = Some(lines);
            return Ok(String::from_str(alloc, shown)?);
        }
        if is_remark(line) {
            return Ok(String::from_str(alloc, shown)?);
        }
        let outcome = made(alloc, &mut self.vault, line)?;
        if outcome.is_done {
            self.keep_level(alloc, line)?;
        }
        let host = match &mut self.host {
            Some(host) => host.made(alloc, line)?,
            None => None,
        };
        printed(alloc, shown, outcome.text.as_str(), host)
    }

    /// After a line that is done: a host holds what an empty disk or a crashed one holds, and none goes on where calls fail.
    fn keep_level(&mut self, alloc: Global, line: &str) -> R<()> {
        if line == "new" || line.starts_with("crash") {
            self.host = Some(Host::over(alloc, left(&self.vault.disk, &[])?)?);
        }
        if line.starts_with("fuse ") || line.starts_with("fail-once ") {
            self.host = None;
        }
        Ok(())
    }

    /// A line within a block: it waits for the end, where the block is run.
    fn feed_block(&mut self, alloc: Global, line: &str, shown: &str) -> R<String> {
        if line == "end" {
            let lines = self.block.take().unwrap_or(Vec::new(alloc));
            return match stops(alloc, &self.vault.disk, lines.as_slice()) {
                Ok(rows) => Ok(format!(in alloc; "{shown}{rows}")?),
                Err(refusal) => Ok(format!(in alloc; "{shown} = refused {refusal}")?),
            };
        }
        if let Some(lines) = &mut self.block {
            if !is_remark(line) {
                lines.push(String::from_str(alloc, line)?)?;
            }
        }
        Ok(String::from_str(alloc, shown)?)
    }
}
