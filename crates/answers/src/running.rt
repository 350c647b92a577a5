//! Scripts: calls as lines of JSON.

ghost use Rattle.std.specs.Prelude.{◌≡◌, ℕ, List, IfOk, IfErr, OnOk};
ghost use Rattle.std.specs.Str.Lines.{lines};
ghost use Rattle.std.specs.Io.KnownBytes.{Appends};
ghost use Rattle.bits.specs.Refusals.{RefusedMemoryOnly};
ghost use Rattle.schema.specs.Shape.{Fields};
ghost use Rattle.table.specs.Views.{calls_view};
ghost use Rattle.jsonrows.specs.Scripts.{next_schema};
ghost use Rattle.answers.specs.Lines.{AreCallTexts, AreRefusedCalls, AreAnswerLines};
ghost use Rattle.answers.specs.Making.{RunsScript};

use crate::printing::print_answer;
use bits::{R, Refusal};
use disk::Disk;
use jsonrows::ScriptReader;
use schema::{Schema, a_list_means_one_schema, a_schema_is_its_elements};
use std::alloc::Global;
use std::io::Write;
use store::Store;
use table::{Answer, Call};

/// Makes the calls of a text, one of each line, and prints the answer of each, a line of JSON. A call that is refused is
/// answered so, and those after it are made. With `texts`, dates, times, timestamps and decimals are texts in what is printed, and
/// are also read as such in rows and filters.
///
/// Refused as `ScriptReader` refuses the first line that is no call, and then no call was made; Memory, and then none was
/// made either, or some of the answers are not printed; and Device where the output cannot be written. `has_run` becomes true
/// where the calls are made. Room is that of all calls and all answers.
pub fn run_script<D: Disk, W: Write>(
    alloc: Global,
    store: &mut Store<D>,
    text: &str,
    texts: bool,
    out: &mut W,
    has_run: &mut bool,
) -> R<()>
    ensures runs { RunsScript D.state texts store.old store.new text.now (W.contents out.old) (W.contents out.new) result }
{
    let calls = calls_of(alloc, store.schema(), text, texts)?;
    let answers = store.run(alloc, calls.as_slice())?;
    *has_run = true;
    print_answers(alloc, store.schema(), answers.as_slice(), texts, out)
}

/// Prints answers, a line each. Later columns stand at the end of the schema, so that it is that of each batch.
pub fn print_answers<W: Write>(
    alloc: Global,
    schema: &Schema,
    answers: &[Answer],
    texts: bool,
    out: &mut W,
) -> R<()>
    ensures printed { OnOk result ((printed : List ℕ) × AreAnswerLines texts schema.now answers.now printed
        × Appends (W.contents out.old) (W.contents out.new) printed) }
{
    for answer in answers {
        print_answer(alloc, schema, answer, texts, out)?;
    }
    Ok(())
}

/// The reader of a script over this schema.
fn reader_for(alloc: Global, schema: &Schema) -> R<ScriptReader>
    ensures reads { IfOk result (λ reader. next_schema reader ≡ schema.now) }
    ensures which { RefusedMemoryOnly result }
{
    a_schema_is_its_elements();
    a_list_means_one_schema();
    // For the proof: this is a schema.
    let _ = schema.leaves();
    match Schema::new(alloc, schema.elements()) {
        Ok(own) => Ok(ScriptReader::new(own)),
        // They are the elements of a schema, so that no other refusal can come.
        Err(_) => Err(Refusal::Memory),
    }
}

/// The calls of a text, one of each line; a last line needs no line feed. Each line is read over the schema with the fields
/// that the lines before it add.
///
/// Refused as `call_from_as` refuses the first line that is no call.
pub fn calls_of(alloc: Global, schema: &Schema, text: &str, texts: bool) -> R<Vec<Call>>
    ensures stands { IfOk result (λ calls. (last : Fields) × AreCallTexts texts schema.now (lines text.now) (calls_view calls.items) last) }
    ensures which { IfErr result (AreRefusedCalls texts schema.now (lines text.now)) }
{
    let mut reader = reader_for(alloc, schema)?;
    let mut calls = Vec::new(alloc);
    for line in text.lines() {
        let call = reader.read_as(alloc, line, texts)?;
        calls.push(call)?;
    }
    Ok(calls)
}
