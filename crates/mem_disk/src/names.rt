//! Names in the order in which they came up, found by their paths.

ghost use Rattle.std.specs.Prelude.{◌≡◌, ◌++◌, ◌∷◌, [], ◌<◌, ℕ, List, length, MatchOption, IfSome, IfOk, OnOk, OnErr, string_bytes};
ghost use Rattle.std.specs.HashMap.{get_by_text};
ghost use Rattle.mem_disk.specs.Tables.{at_first, name_in, place_in, placed_at, FindsNone, Finds, Rebinds, AreApart, SaysTheSame, Settles};

use crate::name::Name;
use disk::Binding;
use std::alloc::{AllocError, Global};
use std::collections::HashMap;

/// What a path names at the beginning: only the dataset's own folder is there.
fn first_of(path: &str) -> Binding
    ensures { result ≡ at_first path.now }
{
    if path.is_empty() {
        Binding::Folder
    } else {
        Binding::Nothing
    }
}

fn fresh_name(alloc: Global, path: &str, to: Binding) -> Result<Name, AllocError>
    ensures { IfOk result (λ name. (string_bytes name.path ≡ path.now) × (name.now ≡ to) × (name.had.items ≡ at_first path.now ∷ [])) }
{
    let mut had = Vec::new(alloc);
    had.push(first_of(path))?;
    Ok(Name {
        path: String::from_str(alloc, path)?,
        now: to,
        had,
    })
}

/// The first name with this path is at this place, where none before it has the path.
fn place(
    alloc: Global,
    places: &mut HashMap<String, usize>,
    path: &str,
    at: usize,
) -> Result<(), AllocError>
    ensures { OnOk result ((q : List ℕ) → get_by_text places.new q ≡ placed_at (get_by_text places.old) path.now at q) }
{
    if !places.contains_key(path) {
        places.insert(String::from_str(alloc, path)?, at)?;
    }
    Ok(())
}

/// The names in a folder are durable, and no path changes.
fn settle(names: &mut Vec<Name>, folder: &str)
    ensures settles { Settles folder.now names.old.items names.new.items }
    ensures apart { AreApart names.old.items → AreApart names.new.items }
    ensures places { (q : List ℕ) → place_in names.new.items q ≡ place_in names.old.items q }
{
    for name in names.iter_mut() {
        name.settle(folder);
    }
}

/// Names in the order in which they came up, and the place of each path among them.
#[derive(Drop)]
pub struct Names {
    pub list: Vec<Name>,
    places: HashMap<String, usize>,
    pub ghost placed: { (q : List ℕ) → get_by_text places q ≡ place_in list.items q },
}

impl Names {
    pub fn new(alloc: Global) -> Names
        ensures { result.list.items ≡ [] }
    {
        Names {
            list: Vec::new(alloc),
            places: HashMap::new(alloc),
        }
    }

    /// Names, with the place of each path among them.
    pub fn of(alloc: Global, list: Vec<Name>) -> Result<Names, AllocError>
        ensures { IfOk result (λ names. names.list.items ≡ list.items) }
    {
        let mut places = HashMap::new(alloc);
        for (at, name) in list.iter().enumerate() {
            place(alloc, &mut places, &name.path, at)?;
        }
        Ok(Names { list, places })
    }

    /// The place of the first name with this path; None where no name has it.
    fn find(&self, path: &str) -> Option<usize>
        ensures place { MatchOption result (FindsNone self.now.list.items path.now) (λ i. Finds self.now.list.items path.now i) }
        ensures within { IfSome result (λ i. i < length self.now.list.items) }
    {
        self.places.get(path).copied()
    }

    /// What a path names.
    pub fn binding(&self, path: &str) -> Binding
        ensures { result ≡ name_in self.now.list.items path.now }
    {
        match self.find(path) {
            Some(i) => self.list[i].now,
            None => first_of(path),
        }
    }

    /// Adds a name whose path no other has.
    fn add(&mut self, alloc: Global, name: Name) -> Result<(), AllocError>
        requires { FindsNone self.old.list.items (string_bytes name.path) }
        ensures ok { OnOk result (self.new.list.items ≡ self.old.list.items ++ name ∷ []) }
        ensures err { OnErr result (self.new.list.items ≡ self.old.list.items) }
    {
        let key = String::from_str(alloc, &name.path)?;
        let at = self.list.len();
        self.list.push(name)?;
        match self.places.insert(key, at) {
            Ok(_) => Ok(()),
            Err(e) => {
                self.list.pop();
                Err(e.into())
            }
        }
    }

    /// Binds a path.
    pub fn rebind(&mut self, alloc: Global, path: &str, to: Binding) -> Result<(), AllocError>
        ensures ok { OnOk result (Rebinds path.now to self.old.list.items self.new.list.items) }
        ensures err { OnErr result (SaysTheSame self.old.list.items self.new.list.items) }
        ensures apart { AreApart self.old.list.items → AreApart self.new.list.items }
    {
        match self.find(path) {
            Some(i) => {
                let name = &mut self.list[i];
                name.turn(to)
            }
            None => {
                let name = fresh_name(alloc, path, to)?;
                self.add(alloc, name)
            }
        }
    }

    /// The names in a folder are durable.
    pub fn settle(&mut self, folder: &str)
        ensures settles { Settles folder.now self.old.list.items self.new.list.items }
        ensures apart { AreApart self.old.list.items → AreApart self.new.list.items }
    {
        settle(&mut self.list, folder);
    }
}
