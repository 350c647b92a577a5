//! What gives rows one by one.

ghost use Rattle.std.specs.Prelude.{◌≡◌, List, Ok, false};
ghost use Rattle.schema.specs.Values.{ValueTrees};
ghost use Rattle.assemble.specs.RowSources.{TakesRowTo};

use crate::sink::RowSink;
use bits::R;

/// What gives rows one by one, in their order, and shows each to a sink.
///
/// A call takes the first of the rows that are left and shows its values. Where rows are left, it fails only when out
/// of memory; a source that has something else to refuse has no rows left. After a refusal the sink may have been shown
/// a part of the row, which it can drop ([`RowSink::drop_row`]).
pub trait RowSource {
    /// The rows that it would still give. Where it will be refused, there are none.
    ghost stands: { Self → List ValueTrees → Type 0 };

    /// Shows a sink the values of the next row. Returns false after the last row, however often it is called, and then
    /// shows nothing.
    fn next_to<K: RowSink>(&mut self, sink: &mut K) -> R<bool>
        ensures takes { TakesRowTo (stands self.old) (stands self.new) (K.shows sink.old) (K.shows sink.new) result }
        ensures unshown { result ≡ Ok false → sink.new ≡ sink.old }
        ensures base_stays { K.base sink.new ≡ K.base sink.old };
}
