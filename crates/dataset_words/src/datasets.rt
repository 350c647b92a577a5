//! Who makes the calls.

ghost use Rattle.std.specs.Prelude.{◌≡◌, ◌∷◌, [], ℕ, List, Option, Some, false, OnOk, IfOk, IfErr};
ghost use Rattle.bits.specs.declared.refusal.Refusal.{Refusal};
ghost use Rattle.dataset_words.specs.declared.call.Call.{Call};

use crate::call::Call;
use crate::file_sink::FileSink;
use bits::R;
use reports::Terminals;
use std::alloc::Global;
use std::io::Write;

/// Makes calls on datasets, and prints to two writers.
pub trait Datasets<W: Write, E: Write> {
    /// A call that is done: by who made it, before and after, and what `out` had and has then.
    ghost prints: { Self → Self → Call → Option (List ℕ) → Option (List ℕ) → Type 0 };

    /// A call that is refused so: by who made it, before and after, and what `out` had and has then.
    ghost refuses: { Self → Self → Call → Option (List ℕ) → Option (List ℕ) → Refusal → Type 0 };

    /// What files a call asks for: by who makes them, before and after, and by the bytes of the files that their taker had and has
    /// then, where these are known.
    ghost gives: { Self → Self → Call → Option (List (List ℕ)) → Option (List (List ℕ)) → Type 0 };

    /// The file that a call asks for is refused so.
    ghost withholds: { Self → Self → Call → Refusal → Type 0 };

    /// Makes a call, and prints what it is to print to `out`. Where it is refused, `err` may get a line that says why.
    /// `terminals` says which of both are terminals: where `err` is one, it may get a line that says what is waited for, and
    /// show how far the call is.
    fn make(
        &mut self,
        alloc: Global,
        call: &Call<'_>,
        out: &mut W,
        err: &mut E,
        terminals: Terminals,
    ) -> R<()>
        ensures done { OnOk result (prints self.old self.new call.now (W.contents out.old) (W.contents out.new)) }
        ensures refused { IfErr result (λ e. refuses self.old self.new call.now (W.contents out.old) (W.contents out.new) e) }
        ensures quiet { terminals.err ≡ false → OnOk result (E.contents err.new ≡ E.contents err.old) };

    /// The bytes of a Parquet file of the rows that a call asks for. Where it is refused, `err` may get a line that says why;
    /// where that is a terminal it may get what [`make`](Datasets::make) shows.
    fn file_of(
        &mut self,
        alloc: Global,
        call: &Call<'_>,
        err: &mut E,
        terminals: Terminals,
    ) -> R<Vec<u8>>
        ensures gives { IfOk result (λ file. gives self.old self.new call.now (Some []) (Some (file.items ∷ []))) }
        ensures withheld { IfErr result (λ e. withholds self.old self.new call.now e) }
        ensures quiet { terminals.err ≡ false → OnOk result (E.contents err.new ≡ E.contents err.old) };

    /// Gives a sink the Parquet files, one after another, of the rows that a call asks for: one at least, and a further one where
    /// the next group of rows would make a file too large. Refused as [`file_of`](Datasets::file_of), and as the sink refuses a
    /// file; the files before it were given then. Where it is refused, `err` may get a line that says why, unless the sink
    /// refused it.
    fn files_of<S: FileSink>(
        &mut self,
        alloc: Global,
        call: &Call<'_>,
        sink: &mut S,
        err: &mut E,
        terminals: Terminals,
    ) -> R<()>
        ensures gives { OnOk result (gives self.old self.new call.now (S.taken sink.old) (S.taken sink.new)) }
        ensures quiet { terminals.err ≡ false → OnOk result (E.contents err.new ≡ E.contents err.old) };
}
