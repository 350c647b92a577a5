//! The groups of a version by their numbers.

ghost use Rattle.std.specs.Prelude.{◌≡◌, ℕ, false, true, None, IfOk, MatchOption, OnOk, is_some, nat_eq, ◌||◌};
ghost use Rattle.std.specs.List.{list_all};
ghost use Rattle.bits.specs.Refusals.{RefusedMemoryOnly};
ghost use Rattle.schema.specs.Cutting.{is_among as is_number_among};
ghost use Rattle.manifest.specs.Groups.{group_view, handles_view};
ghost use Rattle.snapshots.specs.State.{File, file_of, are_distinct, is_version, numbers_of};
ghost use Rattle.snapshots.specs.inner.Found.{file_in, has_number, came, came_next, came_also};

use crate::files::is_same_file;
use crate::versions::are_in_order;
use bits::R;
use manifest::Group;
use std::alloc::Global;
use std::collections::HashMap;
use std::rc::Rc;

/// A group, and when it came: which commit brought it.
#[derive(Drop)]
struct Came {
    group: Rc<Group>,
    at: u64,
}

/// The groups of a version, in which no number comes twice.
#[derive(Drop)]
pub struct Numbered {
    places: HashMap<u64, Came>,
}

impl Numbered {
    pub fn new(alloc: Global) -> Numbered
        ensures numbers { (n : ℕ) → has_number result n ≡ false }
        ensures came { (f : File) → came result f ≡ None }
    {
        Numbered {
            places: HashMap::new(alloc),
        }
    }

    /// Whether a group has this number: one look-up.
    pub fn has_number(&self, number: u64) -> bool
        ensures { result ≡ has_number self.now number }
    {
        self.places.contains_key(&number)
    }

    /// Whether there is a group of each of these numbers.
    pub fn has_all(&self, numbers: &[u64]) -> bool
        ensures { result ≡ list_all (has_number self.now) numbers.now }
    {
        for number in numbers {
            if !self.has_number(*number) {
                return false;
            }
        }
        true
    }

    /// When the file of this group came, if one of the groups has it: one look-up.
    pub fn came(&self, group: &Group) -> Option<u64>
        ensures { result ≡ came self.now (file_of (group_view group.now)) }
    {
        match self.places.get(&group.number) {
            Some(found) => {
                if is_same_file(&found.group, group) {
                    Some(found.at)
                } else {
                    None
                }
            }
            None => None,
        }
    }

    /// Adds a group that came at this time, whose number none of them has.
    fn insert(&mut self, group: &Rc<Group>, at: u64) -> R<()>
        ensures numbers { OnOk result ((n : ℕ) → has_number self.new n ≡ (nat_eq (file_in group.now).number n || has_number self.old n)) }
        ensures came { OnOk result ((f : File) → came self.new f ≡ came_also group.now at self.old f) }
        ensures which { RefusedMemoryOnly result }
    {
        let number = group.number;
        let group = group.clone()?;
        self.places.insert(number, Came { group, at })?;
        Ok(())
    }

    /// The groups of the version that comes after this one at a time; None if a number comes twice. One look-up in this
    /// version for each, and one in the new one.
    pub fn next(&self, alloc: Global, groups: &[Rc<Group>], now: u64) -> R<Option<Numbered>>
        ensures distinct { IfOk result (λ found. is_some found ≡ are_distinct (numbers_of (handles_view groups.now))) }
        ensures numbers { IfOk result (λ found. MatchOption found (Unit {0}) (λ m. (n : ℕ) → has_number m n ≡
            is_number_among (numbers_of (handles_view groups.now)) n)) }
        ensures came { IfOk result (λ found. MatchOption found (Unit {0}) (λ m. (f : File) → came m f ≡ came_next (came self.now) now (handles_view groups.now) f)) }
        ensures which { RefusedMemoryOnly result }
    {
        let mut next = Numbered::new(alloc);
        for group in groups {
            if next.has_number(group.number) {
                return Ok(None);
            }
            let at = self.came(group).unwrap_or(now);
            next.insert(group, at)?;
        }
        Ok(Some(next))
    }

    /// The groups of the version that comes after this one at a time; None if a number comes twice, or if the groups are not
    /// in table order. One look-up in this version for each group, and one in the new one.
    pub fn next_version(&self, alloc: Global, groups: &[Rc<Group>], now: u64) -> R<Option<Numbered>>
        ensures version { IfOk result (λ found. is_some found ≡ is_version (handles_view groups.now)) }
        ensures numbers { IfOk result (λ found. MatchOption found (Unit {0}) (λ m. (n : ℕ) → has_number m n ≡
            is_number_among (numbers_of (handles_view groups.now)) n)) }
        ensures came { IfOk result (λ found. MatchOption found (Unit {0}) (λ m. (f : File) → came m f ≡ came_next (came self.now) now (handles_view groups.now) f)) }
        ensures which { RefusedMemoryOnly result }
    {
        if !are_in_order(groups) {
            return Ok(None);
        }
        self.next(alloc, groups, now)
    }
}
