//! Calls one after another.

ghost use Rattle.std.specs.Prelude.{◌≡◌, ◌≤◌, ◌↔◌, map, length, IfOk, IfErr, OnErr};
ghost use Rattle.table.specs.Calls.{done, job, cursor, more, planned, listed, counted, accepted};
ghost use Rattle.table.specs.Views.{call_view, answer_view, answered, info_view, fetched_view};
ghost use Rattle.table_state.specs.Promises.{Acts, HasCause};
ghost use Rattle.store.specs.Running.{Runs, HaveCauses, IsNoListing, IsListingOf, TellsGroups, ListingsAreOfTheRoot};

use crate::store::Store;
use bits::{R, Refusal};
use disk::Disk;
use std::alloc::Global;
use table::{Answer, Call, Fetched, GroupInfo};

fn of_commit(made: R<u64>) -> Answer
    ensures value { answer_view result ≡ answered done made }
    ensures other { IsNoListing result }
{
    match made {
        Ok(n) => Answer::Done(n),
        Err(refusal) => Answer::Refused(refusal),
    }
}

fn of_job(made: R<u64>) -> Answer
    ensures value { answer_view result ≡ answered job made }
    ensures other { IsNoListing result }
{
    match made {
        Ok(n) => Answer::Job(n),
        Err(refusal) => Answer::Refused(refusal),
    }
}

fn of_cursor(made: R<u64>) -> Answer
    ensures value { answer_view result ≡ answered cursor made }
    ensures other { IsNoListing result }
{
    match made {
        Ok(n) => Answer::Cursor(n),
        Err(refusal) => Answer::Refused(refusal),
    }
}

fn of_count(made: R<u64>) -> Answer
    ensures value { answer_view result ≡ answered counted made }
    ensures other { IsNoListing result }
{
    match made {
        Ok(n) => Answer::Count(n),
        Err(refusal) => Answer::Refused(refusal),
    }
}

fn of_unit(made: R<()>) -> Answer
    ensures value { answer_view result ≡ answered (λ _. accepted) made }
    ensures other { IsNoListing result }
{
    match made {
        Ok(()) => Answer::Accepted,
        Err(refusal) => Answer::Refused(refusal),
    }
}

fn of_more(made: R<bool>) -> Answer
    ensures value { answer_view result ≡ answered more made }
    ensures other { IsNoListing result }
{
    match made {
        Ok(left) => Answer::More(left),
        Err(refusal) => Answer::Refused(refusal),
    }
}

fn of_plan(made: R<Vec<u64>>) -> Answer
    ensures value { answer_view result ≡ answered (λ ns. planned ns.items) made }
    ensures other { IsNoListing result }
{
    match made {
        Ok(numbers) => Answer::Plan(numbers),
        Err(refusal) => Answer::Refused(refusal),
    }
}

fn of_groups(made: R<Vec<GroupInfo>>) -> Answer
    ensures value { answer_view result ≡ answered (λ gs. listed (map info_view gs.items)) made }
    ensures listing { IsListingOf made result }
{
    match made {
        Ok(groups) => Answer::Groups(groups),
        Err(refusal) => Answer::Refused(refusal),
    }
}

fn of_fetch(made: R<Fetched>) -> Answer
    ensures value { answer_view result ≡ answered fetched_view made }
    ensures other { IsNoListing result }
{
    match made {
        Ok(fetched) => Answer::from(fetched),
        Err(refusal) => Answer::Refused(refusal),
    }
}

/// Makes one call.
pub(crate) fn make<D: Disk>(store: &mut Store<D>, alloc: Global, call: &Call) -> Answer
    ensures acts { Acts D.state store.old store.new (call_view call.now) (answer_view result) }
    ensures told { TellsGroups store.old result }
    ensures cause { HasCause D.state store.old store.new (answer_view result) }
    ensures counts { (D.state store.old.vault.disk).failures ≤ (D.state store.new.vault.disk).failures }
    ensures honest { (D.state store.old.vault.disk).honest ↔ (D.state store.new.vault.disk).honest }
{
    match call {
        Call::Append(rows) => of_commit(store.append(alloc, rows.as_slice())),
        Call::BeginAppend => of_job(store.begin_append(alloc)),
        Call::Stage(job, rows) => of_unit(store.stage(alloc, *job, rows.as_slice())),
        Call::Commit(job) => of_commit(store.commit(alloc, *job)),
        Call::Abort(job) => of_unit(store.abort(alloc, *job)),
        Call::Remove(terms) => of_commit(store.remove(alloc, terms.as_slice())),
        Call::RemoveGroups(numbers) => of_commit(store.remove_groups(alloc, numbers.as_slice())),
        Call::BeginRewrite(numbers) => of_job(store.begin_rewrite(alloc, numbers.as_slice())),
        Call::StepRewrite(job) => of_more(store.step_rewrite(alloc, *job)),
        Call::PlanRewrite(min_rows) => of_plan(store.plan_rewrite(alloc, *min_rows)),
        Call::Query(terms, columns) => match columns {
            Some(names) => {
                of_cursor(store.query(alloc, terms.as_slice(), Some(names.as_slice())))
            }
            None => of_cursor(store.query(alloc, terms.as_slice(), None)),
        },
        Call::Fetch(cursor) => of_fetch(store.fetch(alloc, *cursor)),
        Call::Close(cursor) => of_unit(store.close(alloc, *cursor)),
        Call::Groups => of_groups(store.groups(alloc)),
        Call::Count(terms) => of_count(store.count(alloc, terms.as_slice())),
        Call::Import(bytes) => of_commit(store.import(alloc, bytes.as_slice())),
        Call::AddColumn(elements) => of_commit(store.add_column(alloc, elements.as_slice())),
        Call::Reopen => of_unit(store.reopen(alloc)),
    }
}

impl<D: Disk> Store<D> {
    /// Makes calls one after another, and answers each. It is refused only when out of memory for the answers, and then no call
    /// was made.
    pub fn run(&mut self, alloc: Global, calls: &[Call]) -> R<Vec<Answer>>
        // From each state that the store stands in, the answers are those of a history. A stop at any moment since the
        // start leaves the table after the commits done by that moment, or after these and the one in progress
        // or in doubt.
        ensures headline { IfOk result (λ answers. Runs D.state self.old self.new (map call_view calls.now) (map answer_view answers.items)) }
        // What `groups` tells of the groups is what the root had then, their bytes as well.
        ensures told { IfOk result (λ answers. ListingsAreOfTheRoot D.state self.old self.new (map call_view calls.now) answers.items) }
        // Each answer that tells of a failed disk has a failure of its own.
        ensures causes { IfOk result (λ answers. HaveCauses D.state self.old self.new (map answer_view answers.items)) }
        ensures memory { IfErr result (λ e. e ≡ Refusal.Memory) }
        ensures unchanged { OnErr result (self.new ≡ self.old) }
        ensures counts { (D.state self.old.vault.disk).failures ≤ (D.state self.new.vault.disk).failures }
        ensures honest { (D.state self.old.vault.disk).honest ↔ (D.state self.new.vault.disk).honest }
    {
        let mut answers = Vec::with_capacity(alloc, calls.len())?;
        for call in calls {
            let answer = make(self, alloc, call);
            answers.push_reserved(answer);
        }
        Ok(answers)
    }
}
