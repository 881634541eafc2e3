//! What changes 6 and 7 ask of a model: the kind of the group by its code, and the edits. The code is a `u32`, as the
//! call takes it from C: every number is read, and docs/notes/13-house.md names the two functions that take it.
#![tactic(auto)]

ghost use Rattle.std.specs.Prelude.{◌≡◌};
ghost use Rattle.rules.specs.Edit.{convert, flatten};
ghost use Rattle.rules.specs.Decode.{group_of};
ghost use Rattle.model_writer.specs.Writing.{edit_of};

use model_writer::Edit;
use rules::GroupKind;

/// The kind of the group that a change asks for.
pub fn group_kind(sort: u32) -> GroupKind
    ensures { result ≡ group_of sort }
{
    u8::try_from(sort).map_or(GroupKind::Choice, GroupKind::from)
}

/// The edit that makes a group of `count` members.
pub fn convert_edit(count: u32, sort: u32) -> Edit
    ensures { edit_of result ≡ convert (group_of sort) count }
{
    let kind = group_kind(sort);
    Edit::Convert(kind, count as usize)
}

/// The edit that flattens a group into its list.
pub fn flatten_edit() -> Edit
    ensures { edit_of result ≡ flatten }
{
    Edit::Flatten
}
