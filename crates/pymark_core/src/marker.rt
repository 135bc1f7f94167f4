//! Markers (PEP 508, "Environment Markers").

mod builder;
mod comparisons;
mod depth;
mod error;
mod keys;
mod notes;
mod parse;
mod pieces;
mod token;
pub(crate) mod tree;
mod value;

ghost use Rattle.std.specs.Fmt.{padded};
ghost use Rattle.std.specs.Prelude.{◌≡◌, ◌<◌, IfOk, IsErrOf, IsTrue, Some, false, map};
ghost use Rattle.std.specs.Prelude.{string_bytes, true};
ghost use Rattle.pytext.specs.Agreement.{Gives};
ghost use Rattle.pymark_core.specs.Marker.View.{tree_view};
ghost use Rattle.pymark_core.specs.Marker.Depth.{is_deep};
ghost use Rattle.pymark_core.specs.Marker.Grammar.{MarkerText, comparisons, has_misuse};
ghost use Rattle.pymark_core.specs.Marker.Keys.{is_flagged, reads};
ghost use Rattle.pymark_core.specs.Marker.Pieces.{piece_view, tree_pieces};
ghost use Rattle.pymark_core.specs.Marker.Reading.{marker_of, tree_text};
ghost use Rattle.pymark_core.specs.Marker.Tree.{Tree};
ghost use Rattle.pymark_core.specs.Marker.Value.{marker_value, value_with};
ghost use Rattle.pytext.specs.White.{trim_white};
ghost use Rattle.pymark_core.specs.declared.marker.keys.Key.{Key};

use crate::comparison::Comparison;
use crate::environment::Environment;
use crate::fault::EvalFault;
use comparisons::push_tree;
use depth::is_deep;
pub use error::MarkerError;
pub use keys::{Key, Reads};
use parse::read_tree;
pub use pieces::Piece;
use pytext::trim_white;
use std::alloc::{AllocError, Global};
use std::fmt;
use std::marker::Model;
use std::sync::Arc;
pub use token::{Token, next_token};
use tree::Tree;
use value::tree_value;

/// The most bytes of a text that are compared to see that two markers are the same. Nearly each
/// marker is shorter, and a long text that another party chose costs no more than this.
const MOST_COMPARED: usize = 512;

/// A marker: a condition over an environment, with its text as it was given but for the white space
/// round it. Its copies share what was read.
///
/// Contracts see the text and the tree, since the keys follow from the tree.
pub struct Marker {
    parsed: Arc<Parsed>,
}

/// What a marker's text was read as.
#[derive(Drop)]
struct Parsed {
    text: String,
    tree: Tree,
    keys: Reads,
    /// Whether the text was given without white space round it, so that the tree is the text's own.
    is_bare: bool,
    /// The bytes of the text, mixed.
    mixed: u32,
}

impl Model for Marker {
    ghost use Rattle.std.specs.Prelude.{◌≡◌, IsTrue, Some, string_bytes};
    ghost use Rattle.pymark_core.specs.Marker.Coding.{marker_code};
    ghost use Rattle.pymark_core.specs.Marker.Keys.{is_flagged, reads};
    ghost use Rattle.pymark_core.specs.Marker.Reading.{MarkerValue, tree_text};
    ghost use Rattle.pymark_core.specs.Marker.View.{tree_view};
    ghost use Rattle.pymark_core.specs.declared.marker.keys.Key.{Key};

    ghost Value = { MarkerValue };

    ghost coded = { marker_code };

    ghost view = { λ m. record {
      text = string_bytes m.parsed.value.text;
      tree = tree_view m.parsed.value.tree;
    } };

    ghost invariant = { λ m. ((key : Key)
        → is_flagged m.parsed.value.keys key ≡ reads key (tree_view m.parsed.value.tree))
        × (IsTrue m.parsed.value.is_bare → tree_text (string_bytes m.parsed.value.text)
        ≡ Some (tree_view m.parsed.value.tree)) };
}

impl Drop for Marker {
    fn drop(self) {
        let Marker { parsed: _ } = self;
    }
}

impl Marker {
    /// The marker that the text is (PEP 508, "Grammar").
    ///
    /// `TooDeep` is answered to every text in which more than 64 parentheses are open at some
    /// position, quoted texts passed over, whatever else it is; then `Syntax` to every text that
    /// isn't a marker; then `SetMisuse` to a marker in which `extras` or `dependency_groups` stands
    /// anywhere but right of `in` or `not in`. It takes time linear in the text, no recursion, and
    /// memory for the text, for its comparisons, for their quoted texts and for lists of its parts.
    #[tactic(auto, using(crate::proofs::Lemmas::Marker::Reading::Answers::given_marker))]
    pub fn parse(alloc: Global, text: &str) -> Result<Marker, MarkerError>
        ensures ok { IfOk result (λ m. MarkerText text.now m.tree) }
        ensures text { IfOk result (λ m. m.text ≡ trim_white text.now) }
        ensures fits { IfOk result (λ m. (is_deep text.now ≡ false) × (has_misuse m.tree ≡ false)) }

        ensures deep { IsErrOf result MarkerError.TooDeep → is_deep text.now ≡ true }
        ensures syntax { IsErrOf result MarkerError.Syntax
            → (is_deep text.now ≡ false) × ((tree : Tree) → MarkerText text.now tree → ⊥) }
        ensures misuse { IsErrOf result MarkerError.SetMisuse → (is_deep text.now ≡ false)
            × ((tree : Tree) × MarkerText text.now tree × (has_misuse tree ≡ true)) }

        // The same, over the one answer of the grammar.
        ensures exact { Gives MarkerError.Memory (λ m. m) result (marker_of text.now) }
    {
        read_marker(alloc, text)
    }

    /// The given text without the white space round it. It takes no memory.
    pub fn text(&self) -> &str
        ensures { result.now ≡ self.now.text }
    {
        self.parsed.text.as_str()
    }

    /// The value of the marker in an environment (PEP 508, "Environment Markers"). Every comparison
    /// is judged, left to right, so that the first fault of the text is the marker's fault. It
    /// takes time linear in the marker and in the texts that it compares, and memory only where the
    /// text of a variable has to be read as an operand, or normalised as a name.
    pub fn evaluate(&self, alloc: Global, environment: &Environment) -> Result<bool, EvalFault>
        ensures { Gives EvalFault.Memory (λ b. b) result
            (marker_value environment.now self.now.tree) }
    {
        tree_value(alloc, environment, None, &self.parsed.tree)
    }

    /// The value of the marker in an environment where the operand `extra` has this text, as in a
    /// package's metadata: `Requires-Dist: foo; extra == "bar"` (PEP 685). It is that of
    /// [`Marker::evaluate`], but that `extra` is no fault.
    ///
    /// What stands on the other side of `extra`, a quoted text or a variable, is compared as a
    /// name: `==` and `!=` compare the normal forms of the two texts (PEP 503), `in` and `not in`
    /// look for the normal form on the left in that on the right, and any other operator is
    /// `Undefined`. In front of `extras` and `dependency_groups` it is a text like any other.
    ///
    /// It takes memory where `evaluate` does, and besides only for `extra` with `in` or `not in`,
    /// for the normal form of a text that doesn't stand in it already.
    #[tactic(auto, using(crate::proofs::Lemmas::Marker::Value::Refusals::none_given))]
    pub fn evaluate_with_extra(
        &self,
        alloc: Global,
        environment: &Environment,
        extra: &str,
    ) -> Result<bool, EvalFault>
        ensures exact { Gives EvalFault.Memory (λ b. b) result
            (value_with (Some extra.now) environment.now self.now.tree) }
        ensures given { IsErrOf result EvalFault.Extra → ⊥ }
    {
        tree_value(alloc, environment, Some(extra), &self.parsed.tree)
    }

    /// Whether the markers are seen at once to be the same, as two of one text are, up to 512
    /// bytes. `false` says nothing. It takes no memory.
    pub fn is_seen_same(&self, other: &Marker) -> bool
        ensures { IsTrue result → self.now ≡ other.now }
    {
        self.parsed.mixed == other.parsed.mixed
            && self.parsed.is_bare
            && other.parsed.is_bare
            && self.parsed.text.len() <= MOST_COMPARED
            && self.parsed.text.as_str() == other.parsed.text.as_str()
    }

    /// A number below `count`, mixed from the text: where a small table has room for what is known
    /// of the marker. No clause says which number it is. It is mixed without a key, so whoever
    /// writes the texts can make as many as they like that share a number. It takes no memory.
    pub fn slot(&self, count: u32) -> u32
        requires { 0 < count }
        ensures { result < count }
    {
        self.parsed.mixed % count
    }

    /// The comparisons of the marker, in the order in which they stand in its text. It takes memory
    /// for their list.
    pub fn comparisons(&self, alloc: Global) -> Result<Vec<&Comparison>, AllocError>
        ensures { IfOk result (λ list. map (λ c. c.now) list.items ≡ comparisons self.now.tree) }
    {
        let mut list = Vec::new(alloc);
        push_tree(&mut list, &self.parsed.tree)?;
        Ok(list)
    }

    /// What the marker is made of, in the order in which it stands in its text: its tree as a list.
    /// It takes memory for the list.
    pub fn pieces(&self, alloc: Global) -> Result<Vec<Piece<'_>>, AllocError>
        ensures { IfOk result (λ list. map piece_view list.items ≡ tree_pieces self.now.tree) }
    {
        let mut list = Vec::new(alloc);
        pieces::push_tree(&mut list, &self.parsed.tree)?;
        Ok(list)
    }

    /// The keys that stand in the marker as an operand. It takes no memory.
    pub fn reads(&self) -> Reads
        ensures { (key : Key) → is_flagged result key ≡ reads key self.now.tree }
    {
        self.parsed.keys
    }
}

/// A copy shares what was read, also with other threads. It takes no memory; it is refused only
/// where 2^63 copies stand.
impl Clone for Marker {
    ghost is_clone = { λ marker copy. copy ≡ marker };

    fn clone(&self) -> Result<Marker, AllocError> {
        Ok(Marker {
            parsed: self.parsed.clone()?,
        })
    }
}

/// The text in quotes.
impl fmt::Debug for Marker {
    fn fmt<W: fmt::Write>(&self, f: &mut fmt::Formatter<W>) -> fmt::Result {
        fmt::Debug::fmt(self.text(), f)
    }
}

/// The text, filled up to the width where one is asked for.
impl fmt::Display for Marker {
    ghost output = { λ m. Some m.text };

    ghost styled_output = { λ m spec. Some (padded spec m.text) };

    fn fmt<W: fmt::Write>(&self, f: &mut fmt::Formatter<W>) -> fmt::Result {
        f.pad(self.text())
    }
}

#[tactic(auto, using(crate::proofs::Lemmas::Marker::Reading::Answers::marker_answers))]
fn read_marker(alloc: Global, text: &str) -> Result<Marker, MarkerError>
    ensures { Gives MarkerError.Memory (λ m. m) result (marker_of text.now) }
{
    if is_deep(text) {
        return Err(MarkerError::TooDeep);
    }
    let (tree, notes) = read_tree(alloc, text)?;
    if notes.misuse {
        return Err(MarkerError::SetMisuse);
    }
    let bare = trim_white(text);
    let parsed = Parsed {
        text: String::from_str(alloc, bare)?,
        tree,
        keys: notes.reads,
        is_bare: bare == text,
        mixed: mix(bare),
    };
    Ok(share_parsed(alloc, parsed)?)
}

/// The bytes of the text, mixed (FNV-1a, by Fowler, Noll and Vo).
fn mix(text: &str) -> u32 {
    let mut mixed = 0x811C_9DC5u32;
    for byte in text.as_bytes() {
        mixed = (mixed ^ u32::from(*byte)).wrapping_mul(0x0100_0193);
    }
    mixed
}

/// The marker of what was read.
fn share_parsed(alloc: Global, parsed: Parsed) -> Result<Marker, AllocError>
    requires keys { (key : Key) → is_flagged parsed.keys key ≡ reads key (tree_view parsed.tree) }
    requires bare { IsTrue parsed.is_bare
        → tree_text (string_bytes parsed.text) ≡ Some (tree_view parsed.tree) }
    ensures { IfOk result (λ m. m ≡ record {
      text = string_bytes parsed.text;
      tree = tree_view parsed.tree;
    }) }
{
    let parsed = Arc::new(alloc, parsed)?;
    Ok(Marker { parsed })
}
