//! Locks on open files and folders, and how a command waits for one.

ghost use Rattle.std.specs.Prelude.{◌≡◌, false, OnOk};

use std::fs::{File, TryLockError};
use std::io::{self, Write};
use std::rt::Clock;
use std::thread;
use std::time::Duration;

/// What a command does with its folder.
#[derive(Clone, Copy)]
pub enum Access {
    /// The command reads the dataset. Others may read it as well.
    Reads,
    /// The command changes the dataset. No other may use it.
    Writes,
}

/// An open file or folder that can be locked. The lock is held until it is closed, also by the end of the process.
pub trait Lock {
    /// Whether the lock was taken; it was not where another one stands against it. Refused where there are no locks.
    fn try_lock_for(&self, access: Access) -> io::Result<bool>;

    /// Waits for the lock. Refused where there are no locks.
    fn lock_for(&self, access: Access) -> io::Result<()>;
}

impl Lock for File {
    fn try_lock_for(&self, access: Access) -> io::Result<bool> {
        let tried = match access {
            Access::Reads => self.try_lock_shared(),
            Access::Writes => self.try_lock(),
        };
        match tried {
            Ok(()) => Ok(true),
            Err(TryLockError::WouldBlock) => Ok(false),
            Err(TryLockError::Error(error)) => Err(error),
        }
    }

    fn lock_for(&self, access: Access) -> io::Result<()> {
        match access {
            Access::Reads => self.lock_shared(),
            Access::Writes => self.lock(),
        }
    }
}

/// How long a command waits for another one.
#[derive(Clone, Copy)]
pub struct Patience {
    /// The seconds that it waits at most for a lock, and is refused then; None for as long as it takes.
    pub seconds: Option<u64>,
    /// Whether it says that it waits.
    pub shows: bool,
}

/// The time between two tries to take a lock.
const PAUSE_MILLISECONDS: u64 = 10;

/// How many such pauses a second has.
const PAUSES_A_SECOND: u64 = 100;

/// The time after which a command says that it waits.
const SILENT_SECONDS: u64 = 1;

/// Tries to lock what is open, again and again for so many seconds, and at least once. Whether the lock was taken.
pub fn try_for<F: Clock, L: Lock>(
    rt: &F,
    opened: &L,
    access: Access,
    seconds: u64,
) -> io::Result<bool> {
    for _ in 0..seconds.saturating_mul(PAUSES_A_SECOND) {
        if opened.try_lock_for(access)? {
            return Ok(true);
        }
        thread::sleep(rt, Duration::from_millis(PAUSE_MILLISECONDS));
    }
    opened.try_lock_for(access)
}

/// Locks what is open, and waits for that as long as there is patience. Whether the lock was taken.
pub fn take<F: Clock, L: Lock, E: Write>(
    rt: &F,
    opened: &L,
    folder: &str,
    access: Access,
    patience: Patience,
    err: &mut E,
) -> io::Result<bool>
    ensures quiet { patience.shows ≡ false → E.contents err.new ≡ E.contents err.old }
{
    let most = patience.seconds.unwrap_or(u64::MAX);
    if try_for(rt, opened, access, most.min(SILENT_SECONDS))? {
        return Ok(true);
    }
    if most <= SILENT_SECONDS {
        return Ok(false);
    }
    if patience.shows {
        let _ = writeln!(err, "waiting for another command on {folder}");
    }
    let Some(seconds) = patience.seconds else {
        opened.lock_for(access)?;
        return Ok(true);
    };
    try_for(rt, opened, access, seconds.saturating_sub(SILENT_SECONDS))
}
