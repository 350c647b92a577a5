//! Scripts that end at the first call that is refused.

ghost use Rattle.std.specs.Prelude.{◌≡◌, ◌↔◌, ◌≤◌, ◌<◌, length, vec_len, not, IfOk, IfErr, IfSome, IfNone, OnErr};
ghost use Rattle.table.specs.State.{State};
ghost use Rattle.table.specs.Views.{call_view, calls_view, answer_view, answers_view};
ghost use Rattle.table_state.specs.Stands.{Stands};
ghost use Rattle.table_state.specs.Promises.{Acts};
ghost use Rattle.bits.specs.declared.refusal.Refusal.TheVariants.{Memory};
ghost use Rattle.commands.specs.Tasks.{StopsInBytes, RunsBytesToRefusal};
ghost use Rattle.commands.specs.Stopping.{is_done, EndAtRefusal, StopsAt, MakesToRefusal, RunsToRefusal};

use crate::writers::writer_refusal;
use answers::{calls_of, print_answers, text_of};
use bits::{R, Refusal};
use call_reasons::script_reason;
use disk::Disk;
use places::Reason;
use std::alloc::Global;
use std::io::Write;
use std::slice;
use store::Store;
use table::{Answer, Call};

/// Where a script stopped before its end.
#[derive(Drop)]
pub struct Stop {
    /// How many calls were made before the one that was refused.
    pub made: usize,
    /// How many calls the script has.
    pub calls: usize,
    /// Why the next call was refused, or Memory where it could not be made.
    pub refusal: Refusal,
}

/// Makes the calls of a text, one of each line, up to and with the first that is refused, and prints the answer of each, a
/// line of JSON. Returns where it stopped, if that is not the end. `texts` is as for [`run_script`](answers::run_script).
///
/// Refused as `ScriptReader` refuses the first line that is no call, and then no call was made; Memory, and then none was
/// made either, or some of the answers are not printed; and Device where the output cannot be written. `has_run` becomes true
/// where calls are made. Room is that of all calls and of their answers.
pub fn run_script_to_refusal<D: Disk, W: Write>(
    alloc: Global,
    store: &mut Store<D>,
    text: &str,
    texts: bool,
    out: &mut W,
    has_run: &mut bool,
) -> R<Option<Stop>>
    ensures runs { RunsToRefusal D.state texts store.old store.new text.now (W.contents out.old) (W.contents out.new) result }
{
    let calls = calls_of(alloc, store.schema(), text, texts)?;
    let answers = make_to_refusal(alloc, store, calls.as_slice())?;
    *has_run = true;
    print_answers(alloc, store.schema(), answers.as_slice(), texts, out)?;
    Ok(stop_of(calls.len(), answers))
}

/// Makes calls one after another, up to and with the first that is refused, and returns their answers: fewer than there are
/// calls also where memory ran out. It fails only when out of memory for the answers, and then no call was made.
fn make_to_refusal<D: Disk>(alloc: Global, store: &mut Store<D>, calls: &[Call]) -> R<Vec<Answer>>
    ensures makes { IfOk result (λ answers. MakesToRefusal D.state store.old store.new (calls_view calls.now) (answers_view answers.items)) }
    ensures ends { IfOk result (λ answers. EndAtRefusal answers.items) }
    ensures count { IfOk result (λ answers. vec_len answers ≤ length calls.now) }
    ensures memory { IfErr result (λ e. e ≡ Memory) }
    ensures unchanged { OnErr result (store.new ≡ store.old) }
{
    let mut answers = Vec::with_capacity(alloc, calls.len())?;
    for call in calls {
        let Ok(answer) = make_one(alloc, store, call) else {
            return Ok(answers);
        };
        let is_refused = is_refused(&answer);
        answers.push_reserved(answer);
        if is_refused {
            return Ok(answers);
        }
    }
    Ok(answers)
}

/// Makes one call. It fails only when out of memory, and then the call was not made.
fn make_one<D: Disk>(alloc: Global, store: &mut Store<D>, call: &Call) -> R<Answer>
    ensures acts { IfOk result (λ answer. Acts D.state store.old store.new (call_view call.now) (answer_view answer)) }
    ensures unmade { OnErr result ((D.state store.old.vault.disk).honest → (s : State) → Stands D.state store.old s → store.new ≡ store.old) }
    ensures honest { (D.state store.old.vault.disk).honest ↔ (D.state store.new.vault.disk).honest }
{
    let mut answers = store.run(alloc, slice::from_ref(call))?;
    match answers.pop() {
        Some(answer) => Ok(answer),
        // One call has one answer, so that this does not come.
        None => Err(Refusal::Memory),
    }
}

/// Whether an answer is a refusal.
fn is_refused(answer: &Answer) -> bool
    ensures { is_done (answer_view answer.now) ≡ not result }
{
    match answer {
        Answer::Refused(_) => true,
        _ => false,
    }
}

/// Where a script of so many calls stopped, by the answers of those that were made.
fn stop_of(calls: usize, answers: Vec<Answer>) -> Option<Stop>
    ensures stops { EndAtRefusal answers.items → vec_len answers ≤ calls → StopsAt calls (answers_view answers.items) result }
{
    let mut answers = answers;
    let made = answers.len();
    let Some(last) = answers.pop() else {
        return stop_before(made, calls);
    };
    match last {
        Answer::Refused(refusal) => Some(Stop {
            made: answers.len(),
            calls,
            refusal,
        }),
        _ => stop_before(made, calls),
    }
}

/// Where a script of so many calls stopped of which so many were made, and none was refused: before one for which memory
/// ran out, unless all were made.
fn stop_before(made: usize, calls: usize) -> Option<Stop>
    ensures stopped { IfSome result (λ stop. (made < calls) × (stop.made ≡ made) × (stop.calls ≡ calls) × (stop.refusal ≡ Memory)) }
    ensures whole { IfNone result (calls ≤ made) }
{
    if made < calls {
        Some(Stop {
            made,
            calls,
            refusal: Refusal::Memory,
        })
    } else {
        None
    }
}

/// Makes the calls of a script on a store, up to and with the first that is refused, and passes all that was printed on.
/// Refused as that call, and then `why` gets how many were made before it; or as the script or the output is, and then `why`
/// may get the reason.
pub fn run_to_refusal<D: Disk, W: Write>(
    alloc: Global,
    store: &mut Store<D>,
    bytes: &[u8],
    texts: bool,
    out: &mut W,
    why: &mut Option<Reason>,
) -> R<()>
    ensures runs { RunsBytesToRefusal D.state texts store.old store.new bytes.now (W.contents out.old) (W.contents out.new) result }
{
    let mut has_run = false;
    match made_to_refusal(alloc, store, bytes, texts, out, &mut has_run) {
        Ok(None) => Ok(()),
        Ok(Some(stop)) => {
            *why = Some(Reason::Stopped {
                made: stop.made,
                calls: stop.calls,
            });
            Err(stop.refusal)
        }
        Err(refusal) => {
            *why = if has_run {
                Some(Reason::Unprinted)
            } else {
                script_reason(alloc, store.schema(), bytes, texts, &refusal)
            };
            Err(refusal)
        }
    }
}

/// Makes the calls of a script up to and with the first that is refused, and passes all that was printed on. `has_run`
/// becomes true where calls are made.
fn made_to_refusal<D: Disk, W: Write>(
    alloc: Global,
    store: &mut Store<D>,
    bytes: &[u8],
    texts: bool,
    out: &mut W,
    has_run: &mut bool,
) -> R<Option<Stop>>
    ensures stops { StopsInBytes D.state texts store.old store.new bytes.now (W.contents out.old) (W.contents out.new) result }
{
    let text = text_of(bytes)?;
    let stop = run_script_to_refusal(alloc, store, text, texts, out, has_run)?;
    out.flush().map_err(writer_refusal)?;
    Ok(stop)
}
