//! The groups of a marker that are open, with their clauses, from piece to piece. A group is a
//! marker in parentheses, or the whole.

ghost use Rattle.std.specs.Prelude.{◌≡◌, ◌≤◌, ◌&&◌, ◌||◌, Bool, IfOk, IfSome, vec_len};
ghost use Rattle.pymark_core.specs.Environment.{EnvironmentValue};
ghost use Rattle.pymark_core.specs.Marker.Pieces.{closing, either, opening, piece_view};
ghost use Rattle.pymark_clauses.specs.Clauses.{Tells};
ghost use Rattle.pymark_clauses.specs.Groups.{Follows, GroupValue, TellsGroup, behind_or, empty};
ghost use Rattle.pymark_clauses.specs.Groups.{group_value, with_member};

use crate::clauses::{Clause, of_comparison, of_constant};
use crate::products::{appended, multiplied};
use pymark_core::Piece;
use std::alloc::{AllocError, Global};

/// A group as far as it is read.
#[derive(Drop)]
pub(crate) struct Group<'a> {
    /// The clauses of the conjunctions before its last `or`.
    pub(crate) earlier: Vec<Clause<'a>>,
    /// The clauses of all that stands behind that.
    pub(crate) latest: Vec<Clause<'a>>,
}

/// The groups that are open.
#[derive(Drop)]
pub(crate) struct Groups<'a> {
    /// Those round the innermost, from the outside.
    pub(crate) outer: Vec<Group<'a>>,
    /// The innermost.
    pub(crate) inner: Group<'a>,
}

/// Which clauses are made.
#[derive(Clone, Copy)]
pub(crate) struct Form {
    pub(crate) alloc: Global,
    /// The value that is wanted.
    pub(crate) wanted: bool,
    /// The most clauses at a time.
    pub(crate) most: usize,
}

impl Form {
    /// The clauses of two parts with `and` between them.
    fn of_both<'a>(
        &self,
        first: Vec<Clause<'a>>,
        second: Vec<Clause<'a>>,
    ) -> Result<Option<Vec<Clause<'a>>>, AllocError>
        ensures { IfOk result (λ found. IfSome found (λ clauses. (e : EnvironmentValue) (x y : Bool)
            → Tells e self.now.wanted x first.entry.items
            → Tells e self.now.wanted y second.entry.items
            → Tells e self.now.wanted (x && y) clauses.items)) }
    {
        if self.wanted {
            multiplied(self.alloc, first, second, self.most)
        } else {
            appended(first, second, self.most)
        }
    }

    /// The clauses of two parts with `or` between them.
    fn of_either<'a>(
        &self,
        first: Vec<Clause<'a>>,
        second: Vec<Clause<'a>>,
    ) -> Result<Option<Vec<Clause<'a>>>, AllocError>
        ensures tells { IfOk result (λ found. IfSome found (λ clauses.
            (e : EnvironmentValue) (x y : Bool)
            → Tells e self.now.wanted x first.entry.items
            → Tells e self.now.wanted y second.entry.items
            → Tells e self.now.wanted (x || y) clauses.items)) }
        ensures few { IfOk result (λ found.
            IfSome found (λ clauses. vec_len clauses ≤ self.now.most)) }
    {
        if self.wanted {
            appended(first, second, self.most)
        } else {
            multiplied(self.alloc, first, second, self.most)
        }
    }

    /// A group of which nothing is read.
    pub(crate) fn empty<'a>(&self) -> Result<Group<'a>, AllocError>
        ensures { IfOk result (λ group. (e : EnvironmentValue)
            → TellsGroup e self.now.wanted empty group) }
    {
        Ok(Group {
            earlier: of_constant(self.alloc, !self.wanted)?,
            latest: of_constant(self.alloc, self.wanted)?,
        })
    }

    /// The clauses of a group that ends here.
    pub(crate) fn of_group<'a>(
        &self,
        group: Group<'a>,
    ) -> Result<Option<Vec<Clause<'a>>>, AllocError>
        ensures tells { IfOk result (λ found. IfSome found (λ clauses.
            (e : EnvironmentValue) (value : GroupValue)
            → TellsGroup e self.now.wanted value group.entry
            → Tells e self.now.wanted (group_value value) clauses.items)) }
        ensures few { IfOk result (λ found.
            IfSome found (λ clauses. vec_len clauses ≤ self.now.most)) }
    {
        let Group { earlier, latest } = group;
        self.of_either(earlier, latest)
    }

    /// The group with a comparison or a group more, which has these clauses.
    fn with_member<'a>(
        &self,
        group: Group<'a>,
        member: Vec<Clause<'a>>,
    ) -> Result<Option<Group<'a>>, AllocError>
        ensures { IfOk result (λ found. IfSome found (λ longer.
            (e : EnvironmentValue) (value : GroupValue) (more : Bool)
            → TellsGroup e self.now.wanted value group.entry
            → Tells e self.now.wanted more member.entry.items
            → TellsGroup e self.now.wanted (with_member more value) longer)) }
    {
        let Group { earlier, latest } = group;
        match self.of_both(latest, member)? {
            Some(latest) => Ok(Some(Group { earlier, latest })),
            None => Ok(None),
        }
    }

    /// The group with an `or` more.
    fn behind_or<'a>(&self, group: Group<'a>) -> Result<Option<Group<'a>>, AllocError>
        ensures { IfOk result (λ found. IfSome found (λ longer.
            (e : EnvironmentValue) (value : GroupValue)
            → TellsGroup e self.now.wanted value group.entry
            → TellsGroup e self.now.wanted (behind_or value) longer)) }
    {
        match self.of_group(group)? {
            Some(earlier) => Ok(Some(Group {
                earlier,
                latest: of_constant(self.alloc, self.wanted)?,
            })),
            None => Ok(None),
        }
    }

    /// What is open behind the piece, or `None` past the most clauses.
    pub(crate) fn pass<'a>(
        &self,
        groups: Groups<'a>,
        piece: Piece<'a>,
    ) -> Result<Option<Groups<'a>>, AllocError>
        ensures { IfOk result (λ found. IfSome found (λ next.
            Follows self.now.wanted groups.entry (piece_view piece.entry) next)) }
    {
        match piece {
            Piece::Comparison(comparison) => {
                self.pass_member(groups, of_comparison(self.alloc, comparison, self.wanted)?)
            }
            Piece::And => Ok(Some(groups)),
            Piece::Or => self.pass_or(groups),
            Piece::Open => Ok(Some(self.pass_opening(groups)?)),
            Piece::Close => self.pass_closing(groups),
        }
    }

    /// What is open behind a comparison or a group with these clauses.
    fn pass_member<'a>(
        &self,
        groups: Groups<'a>,
        member: Vec<Clause<'a>>,
    ) -> Result<Option<Groups<'a>>, AllocError>
        ensures inner { IfOk result (λ found. IfSome found (λ next.
            (e : EnvironmentValue) (value : GroupValue) (more : Bool)
            → TellsGroup e self.now.wanted value groups.entry.inner
            → Tells e self.now.wanted more member.entry.items
            → TellsGroup e self.now.wanted (with_member more value) next.inner)) }
        ensures outer { IfOk result (λ found. IfSome found (λ next.
            next.outer ≡ groups.entry.outer)) }
    {
        let Groups { outer, inner } = groups;
        match self.with_member(inner, member)? {
            Some(inner) => Ok(Some(Groups { outer, inner })),
            None => Ok(None),
        }
    }

    /// What is open behind an `or`.
    fn pass_or<'a>(&self, groups: Groups<'a>) -> Result<Option<Groups<'a>>, AllocError>
        ensures { IfOk result (λ found.
            IfSome found (Follows self.now.wanted groups.entry either)) }
    {
        let Groups { outer, inner } = groups;
        match self.behind_or(inner)? {
            Some(inner) => Ok(Some(Groups { outer, inner })),
            None => Ok(None),
        }
    }

    /// What is open behind a `(`.
    fn pass_opening<'a>(&self, groups: Groups<'a>) -> Result<Groups<'a>, AllocError>
        ensures { IfOk result (Follows self.now.wanted groups.entry opening) }
    {
        let Groups { mut outer, inner } = groups;
        outer.push(inner)?;
        Ok(Groups {
            outer,
            inner: self.empty()?,
        })
    }

    /// What is open behind a `)`.
    fn pass_closing<'a>(&self, groups: Groups<'a>) -> Result<Option<Groups<'a>>, AllocError>
        ensures { IfOk result (λ found.
            IfSome found (Follows self.now.wanted groups.entry closing)) }
    {
        let Groups { mut outer, inner } = groups;
        let Some(group) = outer.pop() else {
            return Ok(None);
        };
        match self.of_group(inner)? {
            Some(member) => self.pass_member(
                Groups {
                    outer,
                    inner: group,
                },
                member,
            ),
            None => Ok(None),
        }
    }
}
