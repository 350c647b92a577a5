//! The groups of an accepted file, begun one by one.

ghost use Rattle.std.specs.Prelude.{◌≡◌, ◌<◌, length, map, IfOk, IfSome};
ghost use Rattle.metadata.specs.Views.{group_meta_view};
ghost use Rattle.footer.specs.Held.{AreAccepted};
ghost use Rattle.footer.specs.inner.Begun.{BeginsNext};

use bits::R;
use metadata::GroupMeta;
use schema::Schema;
use std::alloc::Global;
use std::marker::Model;

/// The groups of an accepted file that are not begun yet, in their order. A clause sees the bytes before the
/// footer, the schema and the records of the groups.
#[derive(Drop)]
pub struct GroupsLeft<'a> {
    /// The bytes before the footer.
    front: &'a [u8],
    schema: &'a Schema,
    groups: &'a [GroupMeta],
}

impl<'a> Model for GroupsLeft<'a> {
    ghost use Rattle.std.specs.Prelude.{map};
    ghost use Rattle.metadata.specs.Views.{group_meta_view};
    ghost use Rattle.footer.specs.Held.{FileGroups, AreAccepted};
    ghost use Rattle.footer.specs.inner.Code.{file_groups_code};

    ghost Value = { FileGroups };

    ghost coded = { file_groups_code };

    ghost view = { λ g. record { front = g.front.now; schema = g.schema.now; groups = map group_meta_view g.groups.now } };

    ghost invariant = { λ g. AreAccepted g.front.now g.schema.now (map group_meta_view g.groups.now) };
}

impl<'a> GroupsLeft<'a> {
    /// The groups of an accepted file, of which none is begun.
    pub fn new(front: &'a [u8], schema: &'a Schema, groups: &'a [GroupMeta]) -> GroupsLeft<'a>
        requires accepted { AreAccepted front.now schema.now (map group_meta_view groups.now) }
        ensures { result ≡ record { front = front.now; schema = schema.now; groups = map group_meta_view groups.now } }
    {
        GroupsLeft {
            front,
            schema,
            groups,
        }
    }

    /// The schema of the rows.
    pub fn schema(&self) -> &'a Schema
        ensures { result.now ≡ self.now.schema }
    {
        self.schema
    }

    /// Begins the next group, whose rows are returned; none after the last group. It fails only when out of
    /// memory, and then the group is not begun.
    pub fn begin_next(&mut self, alloc: Global) -> R<Option<row_group::Rows<'a>>>
        ensures begins { BeginsNext self.old self.new result }
        ensures fewer { IfOk result (λ next. IfSome next (λ rows. length self.new.groups < length self.old.groups)) }
    {
        let Some((group, others)) = self.groups.split_first() else {
            return Ok(None);
        };
        let rows = row_group::Rows::new(alloc, self.front, group, self.schema)?;
        self.groups = others;
        Ok(Some(rows))
    }
}
