//! Edits of what wheels are judged by: the tags, and the policies of names.

ghost use Rattle.pylock_core.specs.Inner.Editing.{Leaves};
ghost use Rattle.pylock_core.specs.Inner.Parts.{IsSession};
ghost use Rattle.pylock_core.specs.declared.edit.Edit.TheVariants as edit;

use crate::edit::{EditError, Policy};
use crate::session::judging::judgement::{judge_name, judge_tags, rows_under_policy};
use crate::session::parts::Parts;
use crate::session::start_and_edit::Judged;
use crate::session::tables::names::{marks_of, number_all, number_of, set_policies, set_policy};
use crate::session::tables::rows::{marked_entries, put_rows};
use pyver_core::NormalName;
use pywheel_core::TagList;

/// Puts the tags in place of those that were there.
pub(crate) fn set_tags(
    parts: &mut Parts,
    tags: TagList,
    judged: &mut Judged,
) -> Result<(), EditError>
    requires { IsSession parts.old }
    ensures session { IsSession parts.new }
    ensures left { Leaves (edit.Tags tags) parts.old parts.new judged.old judged.new result }
{
    let fresh = judge_tags(parts, &tags, judged)?;
    put_rows(&mut parts.rows, fresh);
    parts.tags = tags;
    Ok(())
}

/// Gives the name the policy.
pub(crate) fn give_policy(
    parts: &mut Parts,
    name: NormalName,
    policy: Policy,
    judged: &mut Judged,
) -> Result<(), EditError>
    requires { IsSession parts.old }
    ensures session { IsSession parts.new }
    ensures left { Leaves (edit.Policy name policy) parts.old parts.new
        judged.old judged.new result }
{
    let number = number_of(parts.alloc, &mut parts.names, name.as_str())?;
    let fresh = judge_name(parts, number, policy, judged)?;
    put_rows(&mut parts.rows, fresh);
    set_policy(&mut parts.names, number, policy);
    Ok(())
}

/// Gives each of the names the policy. Takes memory for the numbers of the names that are new, for
/// a mark for each name that the session has met, and for the rows that it judges; and time for
/// each entry.
pub(crate) fn give_policies(
    parts: &mut Parts,
    names: Vec<NormalName>,
    policy: Policy,
    judged: &mut Judged,
) -> Result<(), EditError>
    requires { IsSession parts.old }
    ensures session { IsSession parts.new }
    ensures left { Leaves (edit.Policies names policy) parts.old parts.new
        judged.old judged.new result }
{
    let alloc = parts.alloc;
    let list = names.as_slice();
    number_all(alloc, &mut parts.names, list)?;
    let marks = marks_of(alloc, &parts.names, list)?;
    let numbers = marked_entries(alloc, parts.rows.as_slice(), marks.as_slice())?;
    let fresh = rows_under_policy(parts, policy, numbers.as_slice(), judged)?;
    put_rows(&mut parts.rows, fresh);
    set_policies(&mut parts.names, list, policy);
    Ok(())
}
