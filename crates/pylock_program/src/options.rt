//! The options of `plan` and `explain`: the edits that each means.

ghost use Rattle.std.specs.Prelude.{◌≡◌, ◌++◌, ◌∷◌, [], IfOk, OnOk, Some};
ghost use Rattle.std.specs.Prelude.{map, option_map, string_bytes};
ghost use Rattle.std.specs.Option.{option_copied};
ghost use Rattle.std.specs.Result.{result_ok};
ghost use Rattle.pywheel_core.specs.Texts.{cut_at};
ghost use Rattle.pylock_command.specs.PlanOptions.{option_words};
ghost use Rattle.pyver_core.specs.Name.{normal_name};
ghost use Rattle.pylock_core.specs.Session.State.{after_edits, in_turn};
ghost use Rattle.pylock_program.specs.PlanOptions.{after_option, after_options};
ghost use Rattle.pylock_program.specs.PlanOptions.{edit_of_name, edits_of, has_entry, name_edit};
ghost use Rattle.pylock_program.specs.PlanOptions.{no_edits_if, policies};
ghost use Rattle.pylock_program.specs.PlanOptions.{set_variable, setting_of};
ghost use Rattle.pylock_program.specs.declared.options.NameEdit.TheVariants as name_edits;
ghost use Rattle.pylock_program.specs.Inner.Chosen.{state_if, state_or_refused};

use pylock_command::PlanOption;
use pylock_core::laws::names_are_edited_in_turn;
use pylock_core::{Edit, EditError, NameChange, Policy, Session};
use pylock_matrix::Setting;
use pymark_core::{Change, Var};
use pytext::Text;
use pyver_core::{NormalName, is_name, is_same_name};
use std::alloc::{AllocError, Global};

/// Makes the edits of the options, one after another, up to the first that is refused, which it
/// answers.
pub(crate) fn make_options<'a>(
    alloc: Global,
    session: &mut Session,
    options: &[PlanOption<'a>],
) -> Result<Option<PlanOption<'a>>, AllocError>
    ensures { IfOk result (λ refused. after_options options.now session.old.state
        ≡ state_or_refused refused session.new.state) }
{
    for option in options {
        if !make_option(alloc, session, *option)? {
            return Ok(Some(*option));
        }
    }
    Ok(None)
}

/// Makes the edit of an option, and answers whether it is accepted.
fn make_option(
    alloc: Global,
    session: &mut Session,
    option: PlanOption<'_>,
) -> Result<bool, AllocError>
    ensures { IfOk result (λ is_made. after_option option.entry session.old.state
        ≡ state_if is_made session.new.state) }
{
    match edit_of(alloc, session, option)? {
        Some(edit) => make_edit(session, edit),
        None => Ok(false),
    }
}

/// Makes an edit, and answers whether it is accepted.
fn make_edit(session: &mut Session, edit: Edit) -> Result<bool, AllocError>
    ensures { IfOk result (λ is_made. result_ok (after_edits (in_turn edit) session.old.state)
        ≡ state_if is_made session.new.state) }
{
    names_are_edited_in_turn();
    match session.edit(edit) {
        Ok(_) => Ok(true),
        Err(EditError::Memory) => Err(AllocError),
        Err(_) => Ok(false),
    }
}

/// What an option does with a name.
#[derive(Clone, Copy)]
enum NameEdit {
    Change(NameChange),
    Policy(Policy),
}

impl NameEdit {
    /// The edit of this name, in normal form.
    fn of(self, alloc: Global, name: &str) -> Result<Edit, AllocError>
        ensures { IfOk result (λ edit. in_turn edit ≡ name_edit self name.now ∷ []) }
    {
        let name = NormalName::new(alloc, name)?;
        Ok(match self {
            NameEdit::Change(change) => Edit::Environment(change.of(name)),
            NameEdit::Policy(policy) => Edit::Policy(name, policy),
        })
    }
}

/// The edit that an option means; none where its text is none.
fn edit_of(
    alloc: Global,
    session: &Session,
    option: PlanOption<'_>,
) -> Result<Option<Edit>, AllocError>
    ensures { IfOk result (λ edit. option_map in_turn edit
        ≡ edits_of session.now.state option.entry) }
{
    match option {
        PlanOption::AllExtras => {
            let extras = session.head().extras();
            changes_of(alloc, NameChange::AddExtra, extras.as_slice(), &[])
        }
        PlanOption::Extra(name) => edit_of_name(
            alloc,
            NameEdit::Change(NameChange::AddExtra),
            name,
        ),
        PlanOption::NoDefaultGroups => {
            let groups = session.head().default_groups();
            changes_of(alloc, NameChange::DropGroup, groups.as_slice(), &[])
        }
        PlanOption::AllGroups => {
            let head = session.head();
            let (groups, defaults) = (head.groups(), head.default_groups());
            changes_of(
                alloc,
                NameChange::AddGroup,
                groups.as_slice(),
                defaults.as_slice(),
            )
        }
        PlanOption::Group(name) => edit_of_name(
            alloc,
            NameEdit::Change(NameChange::AddGroup),
            name,
        ),
        PlanOption::NoGroup(name) => edit_of_name(
            alloc,
            NameEdit::Change(NameChange::DropGroup),
            name,
        ),
        PlanOption::OnlyBinary(name) => policy_edit(alloc, session, Policy::Wheel, name),
        PlanOption::NoBinary(name) => policy_edit(alloc, session, Policy::Source, name),
        PlanOption::Set(text) => set_variable(alloc, text),
        PlanOption::Only(name) | PlanOption::Except(name) => {
            Ok(no_edit_if(alloc, has_entry(session, name)))
        }
        PlanOption::NoProject => Ok(no_edit_if(alloc, true)),
    }
}

/// An edit that changes nothing, where that is so.
fn no_edit_if(alloc: Global, is_so: bool) -> Option<Edit>
    ensures { option_map in_turn result ≡ no_edits_if is_so }
{
    if is_so {
        Some(Edit::Policies(Vec::new(alloc), Policy::Any))
    } else {
        None
    }
}

/// Whether an entry has this name.
fn has_entry(session: &Session, name: &str) -> bool
    ensures { result ≡ has_entry session.now.state name.now }
{
    if !is_name(name) {
        return false;
    }
    for entry in session.entries() {
        if let Some(entry) = entry {
            if is_same_name(name, entry.name()) {
                return true;
            }
        }
    }
    false
}

/// The change for each of these names.
#[tactic(auto, using(crate::proofs::PlanOptionsLemmas::edits_of_names))]
fn changes_of(
    alloc: Global,
    change: NameChange,
    names: &[String],
    others: &[String],
) -> Result<Option<Edit>, AllocError>
    ensures { IfOk result (λ edit. option_map in_turn edit
        ≡ Some (map (name_edit (name_edits.Change change)) (map string_bytes names.now)
        ++ map (name_edit (name_edits.Change change)) (map string_bytes others.now))) }
{
    let mut normal = Vec::with_capacity(alloc, names.len())?;
    push_normal(alloc, &mut normal, names)?;
    push_normal(alloc, &mut normal, others)?;
    Ok(Some(Edit::Names(change, normal)))
}

/// Pushes these names in normal form.
fn push_normal(
    alloc: Global,
    normal: &mut Vec<NormalName>,
    names: &[String],
) -> Result<(), AllocError>
    ensures { OnOk result (normal.new.items
        ≡ normal.old.items ++ map normal_name (map string_bytes names.now)) }
{
    for name in names {
        normal.push(NormalName::new(alloc, name.as_str())?)?;
    }
    Ok(())
}

/// The edit of the text, where that is a name.
fn edit_of_name(alloc: Global, edit: NameEdit, text: &str) -> Result<Option<Edit>, AllocError>
    ensures { IfOk result (λ edits. option_map in_turn edits
        ≡ edit_of_name edit text.now) }
{
    if !is_name(text) {
        return Ok(None);
    }
    Ok(Some(edit.of(alloc, text)?))
}

/// The edit of `--only-binary` and `--no-binary`.
#[tactic(auto, using(crate::proofs::PlanOptionsLemmas::policies_of_names))]
fn policy_edit(
    alloc: Global,
    session: &Session,
    policy: Policy,
    text: &str,
) -> Result<Option<Edit>, AllocError>
    ensures { IfOk result (λ edit. option_map in_turn edit
        ≡ policies session.now.state policy text.now) }
{
    if text == ":all:" {
        let names = entry_names(alloc, session)?;
        return Ok(Some(Edit::Policies(names, policy)));
    }
    edit_of_name(alloc, NameEdit::Policy(policy), text)
}

/// The name of each entry.
fn entry_names(alloc: Global, session: &Session) -> Result<Vec<NormalName>, AllocError>
    ensures { IfOk result (λ names. names.items
        ≡ map (λ entry. normal_name entry.1.name) session.now.state.entries) }
{
    let mut names = Vec::with_capacity(alloc, session.entries().len())?;
    for entry in session.entries() {
        if let Some(entry) = entry {
            names.push(entry.normal_name().clone()?)?;
        }
    }
    Ok(names)
}

/// The edit of `--set`.
fn set_variable(alloc: Global, text: &str) -> Result<Option<Edit>, AllocError>
    ensures { IfOk result (λ edit. option_map in_turn edit ≡ set_variable text.now) }
{
    match setting_of(alloc, text)? {
        Some(setting) => {
            let change = Change::Set(setting.variable, setting.text);
            Ok(Some(Edit::Environment(change)))
        }
        None => Ok(None),
    }
}

/// What `--set` sets by a text, which is cut at its first `=`.
pub(crate) fn setting_of(alloc: Global, text: &str) -> Result<Option<Setting>, AllocError>
    ensures { IfOk result (λ setting. setting ≡ setting_of text.now) }
{
    let Some((name, value)) = split_at_equals(text) else {
        return Ok(None);
    };
    let Some(variable) = Var::of(name) else {
        return Ok(None);
    };
    Ok(Some(Setting {
        variable,
        text: Text::copy_of(alloc, value)?,
    }))
}

/// What stands before and after the first `=`.
pub(crate) fn split_at_equals(text: &str) -> Option<(&str, &str)>
    ensures { option_map (λ cut. (cut.0.now, cut.1.now)) result ≡ cut_at 61 text.now }
{
    text.split_once('=')
}

/// The word of an option, without its dashes, and its text, where it has one.
pub(crate) fn option_words<'a>(option: PlanOption<'a>) -> (&'a str, Option<&'a str>)
    ensures { (result.0.now, option_copied result.1) ≡ option_words option.entry }
{
    match option {
        PlanOption::AllExtras => ("all-extras", None),
        PlanOption::Extra(text) => ("extra", Some(text)),
        PlanOption::NoDefaultGroups => ("no-default-groups", None),
        PlanOption::AllGroups => ("all-groups", None),
        PlanOption::Group(text) => ("group", Some(text)),
        PlanOption::NoGroup(text) => ("no-group", Some(text)),
        PlanOption::OnlyBinary(text) => ("only-binary", Some(text)),
        PlanOption::NoBinary(text) => ("no-binary", Some(text)),
        PlanOption::Set(text) => ("set", Some(text)),
        PlanOption::Only(text) => ("only", Some(text)),
        PlanOption::Except(text) => ("except", Some(text)),
        PlanOption::NoProject => ("no-project", None),
    }
}
