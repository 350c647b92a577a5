//! Laws over the paths of a dataset.

ghost use Rattle.std.specs.Prelude.{◌≡◌, ◌≢◌, ◌⊎◌, List, ℕ};
ghost use Rattle.disk.specs.Paths.{path_in, IsName, IsOnTheWay};
ghost use Rattle.vault.specs.Views.{root_path, next_path};

/// No path is on the way to itself, none is on the way to one of the root's two names, and these are two: so a call at
/// a path leaves the way to it clear, and the ways to these.
pub fn apart()
    ensures own { (path : List ℕ) → IsOnTheWay path path → ⊥ }
    ensures root { (path : List ℕ) → IsOnTheWay path root_path → ⊥ }
    ensures next { (path : List ℕ) → IsOnTheWay path next_path → ⊥ }
    ensures two { root_path ≢ next_path }
{}

/// On the way to a name's path in a folder are that folder and those on the way to it, and no others.
pub fn way_down()
    ensures { (folder name f : List ℕ) → IsName name → IsOnTheWay f (path_in folder name) → (f ≡ folder) ⊎ IsOnTheWay f folder }
{}
