//! Whether the literals of a clause hold together, by the extras and groups that they ask for.

ghost use Rattle.std.specs.Prelude.{◌≡◌, IfSome, IsTrue};
ghost use Rattle.pymark_core.specs.Environment.{EnvironmentValue};
ghost use Rattle.pymark_algebra.specs.Names.{Contradicts, HasAsked, IsAskedBy, IsRefutedWith};
ghost use Rattle.pymark_algebra.specs.Names.{is_in_by};
ghost use Rattle.pymark_algebra.specs.Refuted.{IsRefuted};

use pymark_clauses::Literal;
use pymark_core::Comparator;
use pyver_core::is_same_name;

/// The most literals of a clause of which each is put to all others, so that the time is linear in
/// the clause.
const MOST_ASKED: usize = 64;

/// A set of names that are asked for.
#[derive(Clone, Copy, PartialEq, Eq, Debug)]
pub(crate) enum NameSet {
    Extras,
    Groups,
}

/// A name that is wanted in a set, or not in it.
#[derive(Clone, Copy)]
pub(crate) struct Asked<'a> {
    pub(crate) set: NameSet,
    pub(crate) name: &'a str,
    pub(crate) is_in: bool,
}

/// Whether one literal wants a name that another doesn't want.
pub(crate) fn is_refuted(clause: &[Literal<'_>]) -> bool
    ensures { IsTrue result → IsRefuted clause.now }
{
    for literal in clause.iter().take(MOST_ASKED) {
        if let Some(asked) = asked_name(literal) {
            if is_refuted_with(&asked, clause) {
                return true;
            }
        }
    }
    false
}

/// Whether some literal contradicts what is asked for.
fn is_refuted_with(asked: &Asked<'_>, clause: &[Literal<'_>]) -> bool
    ensures { IsTrue result → IsRefutedWith asked.now clause.now }
{
    for literal in clause {
        if contradicts(literal, asked) {
            return true;
        }
    }
    false
}

/// Whether the literal wants the same name otherwise.
fn contradicts(literal: &Literal<'_>, asked: &Asked<'_>) -> bool
    ensures { IsTrue result → Contradicts literal.now asked.now }
{
    let Some(other) = asked_name(literal) else {
        return false;
    };
    is_opposite(&other, asked)
}

/// Whether one is wanted in a set where the other isn't.
fn is_opposite(first: &Asked<'_>, second: &Asked<'_>) -> bool
    ensures { IsTrue result → (environment : EnvironmentValue) → HasAsked environment first.now
        → HasAsked environment second.now → ⊥ }
{
    first.set == second.set && first.is_in != second.is_in && is_same_name(first.name, second.name)
}

/// The name that the literal wants in a set, or not in it.
pub(crate) fn asked_name<'a>(literal: &Literal<'a>) -> Option<Asked<'a>>
    ensures { IfSome result (λ asked. IsAskedBy literal.now asked) }
{
    let comparison = literal.comparison;
    let is_in = is_in_by(comparison.comparator(), literal.wanted)?;
    if let Some(name) = comparison.extra_asked() {
        return Some(Asked {
            set: NameSet::Extras,
            name,
            is_in,
        });
    }
    let name = comparison.group_asked()?;
    Some(Asked {
        set: NameSet::Groups,
        name,
        is_in,
    })
}

/// Whether the name is in the set where its comparison has this value.
fn is_in_by(comparator: Comparator, wanted: bool) -> Option<bool>
    ensures { result ≡ is_in_by comparator wanted }
{
    match comparator {
        Comparator::In => Some(wanted),
        Comparator::NotIn => Some(!wanted),
        Comparator::By(_) => None,
    }
}
