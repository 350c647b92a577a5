//! The levels of the entries of a page.

ghost use Rattle.std.specs.Prelude.{◌≡◌, ◌<◌, length, filter, replicate, ◌==◌, slice_get, IfSome, IsTrue};

/// One level for each entry of a page. Where all are 0, only their count is held.
#[derive(Debug, Drop)]
pub enum LevelList {
    Zeros(usize),
    Listed(Vec<u32>),
}

impl LevelList {
    ghost use Rattle.pages.specs.Left.{levels_of};

    /// The level at an index.
    #[inline(always)]
    pub fn get(&self, index: usize) -> Option<u32>
        ensures level { result ≡ slice_get (levels_of self.now) index }
        ensures within { IfSome result (λ _. index < usize.MAX) }
    {
        match self {
            LevelList::Zeros(count) => { if index < *count { Some(0) } else { None } }
            LevelList::Listed(levels) => levels.as_slice().get(index).copied(),
        }
    }

    /// Whether this many levels, all of them 0, are held by their count. False says nothing.
    pub fn are_zeros(&self, count: usize) -> bool
        ensures { IsTrue result → levels_of self.now ≡ replicate count 0 }
    {
        match self {
            LevelList::Zeros(own) => *own == count,
            LevelList::Listed(_) => false,
        }
    }

    /// How many levels there are.
    #[inline(always)]
    pub fn len(&self) -> usize
        ensures { result ≡ length (levels_of self.now) }
    {
        match self {
            LevelList::Zeros(count) => *count,
            LevelList::Listed(levels) => levels.len(),
        }
    }

    /// How many of the levels are this one.
    pub fn count_of(&self, level: u32) -> usize
        ensures { result ≡ length (filter (λ l. l == level) (levels_of self.now)) }
    {
        match self {
            LevelList::Zeros(count) => { if level == 0 { *count } else { 0 } }
            LevelList::Listed(levels) => levels.iter().filter(|l| **l == level).count(),
        }
    }
}
