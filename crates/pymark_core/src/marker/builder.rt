//! The tree of a marker, built from its tokens.

ghost use Rattle.std.specs.Prelude.{◌≡◌, [], ◌∷◌, ◌++◌, Ok, OnOk, ok_or, option_map};
ghost use Rattle.pytext.specs.Agreement.{Gives};
ghost use Rattle.pymark_core.specs.Inner.Building.{NotesGain, frame_view, comparison_ended_by};
ghost use Rattle.pymark_core.specs.Inner.Building.{outer_view, state_view, stage_atom, stage_view};
ghost use Rattle.pymark_core.specs.Inner.LentToken.{token_view};
ghost use Rattle.pymark_core.specs.Marker.Reading as reading;
ghost use Rattle.pymark_core.specs.Marker.View.{atom_view, tree_view};

use super::error::MarkerError;
use super::notes::Notes;
use super::token::Token;
use super::tree::{Atom, Conjunction, Joined, Tree};
use crate::comparison::Comparison;
use crate::operand::{Comparator, Operand};
use crate::variable::Var;
use pytext::Text;
use std::alloc::Global;
use std::mem;

/// What stands so far inside one pair of parentheses.
#[derive(Drop)]
struct Frame {
    /// Conjunctions, each with an `or` behind it.
    conjunctions: Vec<Conjunction>,
    /// Atoms of the next conjunction, each with an `and` behind it.
    atoms: Vec<Atom>,
}

/// What may stand next, with what was read of a comparison.
#[derive(Drop)]
pub(super) enum Stage {
    /// An operand or `(`.
    Start,
    /// An operator, or `not`.
    Operator(Operand),
    /// The `in` of `not in`.
    In(Operand),
    /// The operand on the right.
    Right(Operand, Comparator),
    /// `and`, `or`, `)` or the end, behind an atom.
    Rest(Atom),
}

/// A marker's tree as far as it was read, but for the stage. It needs no recursion, however deep
/// the parentheses are.
#[derive(Drop)]
pub(super) struct Builder {
    /// The frame of each open parenthesis, the innermost last.
    outer: Vec<Frame>,
    /// The frame of what is read now.
    inner: Frame,
}

impl Frame {
    fn new(alloc: Global) -> Frame
        ensures { frame_view result ≡ reading.empty_frame }
    {
        Frame {
            conjunctions: Vec::new(alloc),
            atoms: Vec::new(alloc),
        }
    }

    /// The tree that ends with this atom.
    fn tree(self, last: Atom) -> Tree
        ensures { tree_view result ≡ reading.frame_tree (frame_view self) (atom_view last) }
    {
        let Frame {
            conjunctions,
            atoms,
        } = self;
        Joined {
            earlier: conjunctions,
            last: Joined {
                earlier: atoms,
                last,
            },
        }
    }
}

/// The operand of a word.
fn word_operand(letters: &str) -> Option<Operand>
    ensures { result ≡ reading.word_operand letters.now }
{
    if letters == "extra" {
        return Some(Operand::Extra);
    }
    if letters == "extras" {
        return Some(Operand::Extras);
    }
    if letters == "dependency_groups" {
        return Some(Operand::Groups);
    }
    Var::of(letters).map(Operand::Variable)
}

/// The operand of a token.
#[tactic(auto, unfolding(crate::specs::Marker::Reading::token_operand))]
fn token_operand(alloc: Global, token: Token<'_>) -> Result<Operand, MarkerError>
    ensures { Gives MarkerError.Memory (λ o. o) result
        (ok_or (reading.token_operand (token_view token.entry)) MarkerError.Syntax) }
{
    match token {
        Token::Word(letters) => word_operand(letters).ok_or(MarkerError::Syntax),
        Token::Quoted(text) => Ok(Operand::Text(Text::new(String::from_str(alloc, text)?))),
        Token::Open | Token::Close | Token::Sign(_) => Err(MarkerError::Syntax),
    }
}

/// What may stand behind the left operand and this token.
fn stage_after_left(left: Operand, token: Token<'_>) -> Option<Stage>
    ensures { option_map stage_view result
        ≡ reading.stage_after_left left (token_view token.entry) }
{
    match token {
        Token::Sign(operator) => Some(Stage::Right(left, Comparator::By(operator))),
        Token::Word("in") => Some(Stage::Right(left, Comparator::In)),
        Token::Word("not") => Some(Stage::In(left)),
        _ => None,
    }
}

/// What may stand behind the left operand, `not` and this token.
fn stage_after_not(left: Operand, token: Token<'_>) -> Option<Stage>
    ensures { option_map stage_view result ≡ reading.stage_after_not left (token_view token.entry) }
{
    match token {
        Token::Word("in") => Some(Stage::Right(left, Comparator::NotIn)),
        _ => None,
    }
}

/// The atom behind which the stage is.
fn stage_atom(stage: Stage) -> Option<Atom>
    ensures { option_map atom_view result ≡ stage_atom (stage_view stage) }
{
    match stage {
        Stage::Rest(atom) => Some(atom),
        Stage::Start | Stage::Operator(_) | Stage::In(_) | Stage::Right(_, _) => None,
    }
}

/// Takes the right operand of a comparison, which is noted.
#[tactic(auto, using(crate::proofs::Lemmas::Building::Notes::notes_gain_one))]
fn right_operand(
    alloc: Global,
    notes: &mut Notes,
    left: Operand,
    comparator: Comparator,
    token: Token<'_>,
) -> Result<Stage, MarkerError>
    ensures stage { Gives MarkerError.Memory stage_view result
        (ok_or (reading.stage_after_right left comparator (token_view token.entry))
        MarkerError.Syntax) }
    ensures notes { OnOk result (NotesGain notes.old notes.new
        (comparison_ended_by (reading.at_right left comparator) (token_view token.entry))) }
{
    let right = token_operand(alloc, token)?;
    notes.add(&left, comparator, &right);
    let comparison = Comparison::new(alloc, left, comparator, right)?;
    Ok(Stage::Rest(Atom::Leaf(Box::new(alloc, comparison)?)))
}

impl Builder {
    /// Nothing read yet.
    pub(super) fn new(alloc: Global) -> Builder
        ensures { state_view result Stage.Start ≡ reading.initial_state }
    {
        Builder {
            outer: Vec::new(alloc),
            inner: Frame::new(alloc),
        }
    }

    /// Takes a `(`.
    fn open_group(&mut self, alloc: Global) -> Result<Stage, MarkerError>
        ensures { Gives MarkerError.Memory (state_view self.new) result (Ok (record {
          outer = frame_view self.old.inner ∷ outer_view self.old;
          inner = reading.empty_frame;
          stage = reading.at_atom;
        })) }
    {
        let frame = mem::replace(&mut self.inner, Frame::new(alloc));
        self.outer.push(frame)?;
        Ok(Stage::Start)
    }

    /// Takes an operand or a `(`, before an atom.
    fn take_start(&mut self, alloc: Global, token: Token<'_>) -> Result<Stage, MarkerError>
        ensures { Gives MarkerError.Memory (state_view self.new) result (ok_or
            (reading.state_after_start (outer_view self.old) (frame_view self.old.inner)
            (token_view token.entry)) MarkerError.Syntax) }
    {
        match token {
            Token::Open => self.open_group(alloc),
            Token::Word(_) | Token::Quoted(_) => Ok(Stage::Operator(token_operand(alloc, token)?)),
            Token::Close | Token::Sign(_) => Err(MarkerError::Syntax),
        }
    }

    /// Takes a `)` behind this atom.
    fn close_group(&mut self, alloc: Global, atom: Atom) -> Result<Stage, MarkerError>
        ensures { Gives MarkerError.Memory (state_view self.new) result (ok_or
            (reading.state_after_closing (outer_view self.old) (frame_view self.old.inner)
            (atom_view atom))
            MarkerError.Syntax) }
    {
        let Some(frame) = self.outer.pop() else {
            return Err(MarkerError::Syntax);
        };
        let inner = mem::replace(&mut self.inner, frame);
        let group = Box::new(alloc, inner.tree(atom))?;
        Ok(Stage::Rest(Atom::Group(group)))
    }

    /// Takes an `and` behind this atom.
    fn join_and(&mut self, atom: Atom) -> Result<Stage, MarkerError>
        ensures { Gives MarkerError.Memory (state_view self.new) result (Ok (record {
          outer = outer_view self.old;
          inner = record {
            conjunctions = (frame_view self.old.inner).conjunctions;
            atoms = (frame_view self.old.inner).atoms ++ atom_view atom ∷ [];
          };
          stage = reading.at_atom;
        })) }
    {
        self.inner.atoms.push(atom)?;
        Ok(Stage::Start)
    }

    /// Takes an `or` behind this atom.
    fn join_or(&mut self, alloc: Global, atom: Atom) -> Result<Stage, MarkerError>
        ensures { Gives MarkerError.Memory (state_view self.new) result (Ok (record {
          outer = outer_view self.old;
          inner = record {
            conjunctions = (frame_view self.old.inner).conjunctions
                ++ reading.frame_conjunction (frame_view self.old.inner) (atom_view atom) ∷ [];
            atoms = [];
          };
          stage = reading.at_atom;
        })) }
    {
        let earlier = mem::replace(&mut self.inner.atoms, Vec::new(alloc));
        self.inner.conjunctions.push(Joined {
            earlier,
            last: atom,
        })?;
        Ok(Stage::Start)
    }

    /// Takes a token behind this atom.
    fn take_rest(
        &mut self,
        alloc: Global,
        atom: Atom,
        token: Token<'_>,
    ) -> Result<Stage, MarkerError>
        ensures { Gives MarkerError.Memory (state_view self.new) result (ok_or
            (reading.state_after_atom (outer_view self.old) (frame_view self.old.inner)
            (atom_view atom) (token_view token.entry)) MarkerError.Syntax) }
    {
        match token {
            Token::Close => self.close_group(alloc, atom),
            Token::Word("and") => self.join_and(atom),
            Token::Word("or") => self.join_or(alloc, atom),
            _ => Err(MarkerError::Syntax),
        }
    }

    /// The stage after one more token.
    #[tactic(auto, unfolding(crate::specs::Marker::Reading::next_state))]
    pub(super) fn take_token(
        &mut self,
        alloc: Global,
        notes: &mut Notes,
        stage: Stage,
        token: Token<'_>,
    ) -> Result<Stage, MarkerError>
        ensures state { Gives MarkerError.Memory (state_view self.new) result
            (ok_or (reading.next_state (state_view self.old stage) (token_view token.entry))
            MarkerError.Syntax) }
        ensures notes { OnOk result (NotesGain notes.old notes.new
            (comparison_ended_by (stage_view stage) (token_view token.entry))) }
    {
        match stage {
            Stage::Start => self.take_start(alloc, token),
            Stage::Operator(left) => stage_after_left(left, token).ok_or(MarkerError::Syntax),
            Stage::In(left) => stage_after_not(left, token).ok_or(MarkerError::Syntax),
            Stage::Right(left, comparator) => right_operand(alloc, notes, left, comparator, token),
            Stage::Rest(atom) => self.take_rest(alloc, atom, token),
        }
    }

    /// The tree, where the text may end behind this atom.
    #[tactic(auto, using(crate::proofs::Lemmas::Building::Steps::open_or_none))]
    fn tree_at_end(self, atom: Atom) -> Option<Tree>
        ensures { option_map tree_view result
            ≡ reading.tree_at_end (outer_view self) (reading.at_rest (atom_view atom))
            (frame_view self.inner) }
    {
        let Builder { outer, inner } = self;
        if outer.as_slice().is_empty() {
            Some(inner.tree(atom))
        } else {
            None
        }
    }

    /// The tree, where the text may end at this stage.
    #[tactic(auto, unfolding(crate::specs::Marker::Reading::final_tree))]
    pub(super) fn final_tree(self, stage: Stage) -> Option<Tree>
        ensures { option_map tree_view result ≡ reading.final_tree (state_view self stage) }
    {
        let atom = stage_atom(stage)?;
        self.tree_at_end(atom)
    }
}
