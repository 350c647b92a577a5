//! The commit of a new version.

ghost use Rattle.std.specs.Prelude.{◌≡◌, ◌⊎◌, ◌↔◌, ℕ, List, false, IsTrue, OnOk, OnErr, None};
ghost use Rattle.bits.specs.Refusals.{RefusedOnly};
ghost use Rattle.vault.specs.Calls.{CountsOnce};
ghost use Rattle.manifest.specs.Groups.{root_of};
ghost use Rattle.snapshots.specs.State.{after, committed};
ghost use Rattle.snapshots.specs.Views.{state_of, prepared_of};
ghost use Rattle.table.specs.Table.{Table};
ghost use Rattle.table.specs.State.{State, Job};
ghost use Rattle.table_state.specs.Promises.{ClosesInDoubt, LeavesTable, TouchesTable, TouchesTableAndJobs};
ghost use Rattle.table_state.specs.Lookups.{jobs_left};
ghost use Rattle.table_state.specs.Stands.{Shows, IsTracked};
ghost use Rattle.table_commits.specs.Committing.{IsTurnTo, Turns};

use bits::{R, Refusal};
use disk::Disk;
use manifest::Manifest;
use snapshots::Prepared;
use table::JobId;
use table_state::{Core, end_job};

/// A commit for which all room is there.
#[derive(Drop)]
pub struct Turn {
    /// The table's description after the commit.
    pub manifest: Manifest,
    /// The bytes of the root of that description.
    pub root: Vec<u8>,
    /// The job that the commit ends; None where it ends none.
    pub job: Option<JobId>,
    pub prepared: Prepared,
}

fn is_in_doubt(refusal: &Refusal) -> bool
    ensures { IsTrue result ↔ (refusal.now ≡ Refusal.InDoubt) }
{
    matches!(refusal, Refusal::InDoubt)
}

/// Swaps the root for the new one, and goes over to the new version. Refused Device and Memory, the table is as it
/// was; InDoubt, the commit stands or not, and the store is closed.
pub(crate) fn take_turn<D: Disk>(store: &mut Core<D>, turn: Turn) -> R<()>
    ensures turns { (D.state store.old.vault.disk).honest → (s : State) (t : Table) (jobs : List (ℕ × Job)) → Shows D.state store.old s → s.closed ≡ false
        → IsTurnTo (D.state store.old.vault.disk) store.old s t jobs turn → Turns D.state store.old store.new s t jobs result }
    ensures tracks { (D.state store.old.vault.disk).honest → (s : State) → Shows D.state store.old s → s.closed ≡ false
        → (root_of turn.manifest).keys ≡ (root_of store.old.manifest).keys
        → prepared_of turn.prepared ≡ after (state_of store.old.snapshots) (committed (root_of turn.manifest).groups turn.job)
        → OnOk result (IsTracked (D.state store.new.vault.disk) store.new) }
    ensures which { RefusedOnly (λ e. (e ≡ Refusal.Device) ⊎ (e ≡ Refusal.InDoubt)) result }
    ensures doubt { ClosesInDoubt store.new result }
    ensures kept { OnErr result (LeavesTable store.old store.new) }
    ensures touches { TouchesTableAndJobs store.old store.new }
    ensures alone { turn.job ≡ None → TouchesTable store.old store.new }
    ensures counts { CountsOnce result (D.state store.old.vault.disk) (D.state store.new.vault.disk) }
    ensures reads { (D.state store.new.vault.disk).reads ≡ (D.state store.old.vault.disk).reads }
    ensures honest { (D.state store.old.vault.disk).honest ↔ (D.state store.new.vault.disk).honest }
{
    let Turn {
        manifest,
        root,
        job,
        prepared,
    } = turn;
    match store.vault.swap_root(root.as_slice()) {
        Ok(()) => {
            store.manifest = manifest;
            store.snapshots.publish(prepared);
            end(store, job);
            Ok(())
        }
        Err(refusal) => {
            if is_in_doubt(&refusal) {
                store.closed = true;
                return Err(Refusal::InDoubt);
            }
            Err(refusal)
        }
    }
}

/// Takes the job away that ends, if one does.
fn end<D: Disk>(store: &mut Core<D>, job: Option<JobId>)
    ensures left { store.new.jobs.items ≡ jobs_left job store.old.jobs.items }
    ensures none { job ≡ None → store.new ≡ store.old }
    ensures same { store.new ≡ record store.old { jobs = store.new.jobs } }
{
    if let Some(number) = job {
        end_job(&mut store.jobs, number);
    }
}
