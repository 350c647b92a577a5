//! Where files go.

ghost use Rattle.std.specs.Prelude.{◌∷◌, [], ℕ, List, Option, OnOk};
ghost use Rattle.dataset_words.specs.Files.{TakesFiles};

use bits::R;

/// Takes files, one after another.
pub trait FileSink {
    /// The bytes of the files that were taken so far, where they are known.
    ghost taken: { Self → Option (List (List ℕ)) };

    /// Takes one more file.
    fn take(&mut self, file: Vec<u8>) -> R<()>
        ensures takes { OnOk result (TakesFiles (taken self.old) (taken self.new) (file.items ∷ [])) };

    /// Whether it has refused a file; then it knows why.
    fn has_refused(&self) -> bool;
}
