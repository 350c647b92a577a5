//! When calls fail, and what a failed call has done.

ghost use Rattle.std.specs.Prelude.{◌≡◌, ◌≢◌, IsErrOf};
ghost use Rattle.disk.specs.State.{IsOneMore};
ghost use Rattle.disk.specs.Calls.{CountsFailure};
ghost use Rattle.disk.specs.declared.fault.Fault.TheVariants.{Failed, Memory};
ghost use Rattle.mem_disk.specs.States.{IsAnswer};
ghost use Rattle.mem_disk.specs.Fuses;
ghost use Rattle.mem_disk.specs.Shortages.{told_as};

use disk::Fault;

/// What a failed call has done.
#[derive(Clone, Copy, Debug, PartialEq, Eq)]
pub enum Done {
    Nothing,
    Whole,
    /// the first half of what is appended, rounded down to whole bytes, or the target's name only of a rename; of
    /// any other call the whole
    Part,
}

/// Which calls fail.
#[derive(Clone, Copy, Debug, PartialEq, Eq)]
pub enum Fuse {
    Never,
    /// this many calls pass, and all later ones fail
    After(u64, Done),
    /// this many calls pass, and one fails
    Once(u64, Done),
}

/// Whether a call fails.
#[derive(Clone, Copy, Debug, PartialEq, Eq)]
pub enum Trip {
    Passes,
    Fails(Done),
}

/// What the pick of a failure says: 0 nothing, 1 the whole, 2 a part, modulo 3.
pub fn done_of(pick: u64) -> Done
    ensures { result ≡ Fuses.done_of pick }
{
    match pick % 3 {
        0 => Done::Nothing,
        1 => Done::Whole,
        _ => Done::Part,
    }
}

impl Fuse {
    ghost use Rattle.mem_disk.specs.Fuses.{trip_of, burnt};

    /// Burns the fuse by one call, and returns whether that call fails.
    pub fn burn(&mut self) -> Trip
        ensures trip { result ≡ trip_of self.old }
        ensures burnt { self.new ≡ burnt self.old }
    {
        match *self {
            Fuse::Never => Trip::Passes,
            Fuse::After(0, done) => Trip::Fails(done),
            Fuse::After(left, done) => {
                *self = Fuse::After(left - 1, done);
                Trip::Passes
            }
            Fuse::Once(0, done) => {
                *self = Fuse::Never;
                Trip::Fails(done)
            }
            Fuse::Once(left, done) => {
                *self = Fuse::Once(left - 1, done);
                Trip::Passes
            }
        }
    }
}

/// Counts a refused growth, where the call is to fail.
pub fn count_shortage(shortages: &mut u64, trip: Trip, done: &Result<(), Fault>)
    ensures out_of_memory { trip ≢ Trip.Passes → IsErrOf done.now Memory → IsOneMore shortages.old shortages.new }
    ensures passes { trip ≡ Trip.Passes → shortages.new ≡ shortages.old }
    ensures others { (IsErrOf done.now Memory → ⊥) → shortages.new ≡ shortages.old }
{
    if trip == Trip::Passes {
        return;
    }
    if let Err(Fault::Memory) = done {
        *shortages = shortages.saturating_add(1);
    }
}

/// What a call that never returns Memory returns: a refused growth as a failure, which is counted as a shortage.
pub fn tell_shortage(shortages: &mut u64, done: Result<(), Fault>) -> Result<(), Fault>
    ensures told { result ≡ told_as done }
    ensures out_of_memory { IsErrOf done Memory → IsOneMore shortages.old shortages.new }
    ensures others { (IsErrOf done Memory → ⊥) → shortages.new ≡ shortages.old }
{
    let Err(Fault::Memory) = done else {
        return done
    };
    *shortages = shortages.saturating_add(1);
    Err(Fault::Failed)
}

/// The result of a call that has done this: `Failed`, and counted, where it fails.
pub fn answer<T: Drop>(failures: &mut u64, trip: Trip, done: Result<T, Fault>) -> Result<T, Fault>
    ensures answer { IsAnswer done result }
    ensures counts { CountsFailure result failures.old failures.new }
    ensures passes { trip ≡ Trip.Passes → result ≡ done }
    ensures fails { trip ≢ Trip.Passes → result ≡ Err Failed }
{
    let result = match trip {
        Trip::Passes => done,
        Trip::Fails(_) => Err(Fault::Failed),
    };
    if let Err(Fault::Failed) = &result {
        *failures = failures.saturating_add(1);
    }
    result
}
