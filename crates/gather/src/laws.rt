//! Laws about the groups that rows fill.

ghost use Rattle.gather.specs.Laws.{GroupsHaveRows};

/// The rows of a key are those of its full groups, one group after another, and then those that fill no group.
#[tactic(auto, using(crate::proofs::EachRow::groups_have_rows))]
pub fn groups_have_rows()
    ensures { GroupsHaveRows }
{}
