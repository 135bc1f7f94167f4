//! The targets of a matrix, from the words of their Pythons and platforms.

ghost use Rattle.std.specs.Prelude.{◌≡◌, ◌++◌, IfOk, Ok, map};
ghost use Rattle.pytext.specs.Agreement.{Gives};
ghost use Rattle.pywheel_core.specs.Target.Reading.{target_of};
ghost use Rattle.pywheel_core.specs.Texts.{pieces_at};
ghost use Rattle.pylock_matrix.specs.Cell.{before, cell_of, cells_of, cells_with, words_in};
ghost use Rattle.pylock_matrix.specs.declared.cell.CellError.TheVariants as refused;

use pytext::Text;
use pywheel_core::{Target, TargetError};
use std::alloc::{AllocError, Global};
use std::marker::Model;

/// A target, and the words of its Python and its platform.
pub struct Cell {
    python: Text,
    platform: Text,
    target: Target,
}

impl Model for Cell {
    ghost use Rattle.std.specs.Prelude.{◌≡◌, Ok};
    ghost use Rattle.pywheel_core.specs.Target.Reading.{target_of};
    ghost use Rattle.pylock_matrix.specs.Cell.{CellValue};

    ghost Value = { CellValue };

    ghost view = { λ c. record { python = c.python; platform = c.platform; target = c.target } };

    ghost invariant = { λ c. target_of c.python c.platform ≡ Ok c.target };
}

impl Drop for Cell {
    fn drop(self) {
        let Cell {
            python: _,
            platform: _,
            target: _,
        } = self;
    }
}

impl Cell {
    /// The target that a Python and a platform name, as [`Target::parse`] reads them. It takes
    /// memory for a copy of both words, or of the one that is refused.
    pub fn parse(alloc: Global, python: &str, platform: &str) -> Result<Cell, CellError>
        ensures { Gives CellError.Memory (λ cell. cell) result (cell_of python.now platform.now) }
    {
        match Target::parse(python, platform) {
            Ok(target) => Ok(Cell {
                python: Text::copy_of(alloc, python)?,
                platform: Text::copy_of(alloc, platform)?,
                target,
            }),
            Err(TargetError::Python) => Err(CellError::Python(Text::copy_of(alloc, python)?)),
            Err(TargetError::Platform) => Err(CellError::Platform(Text::copy_of(alloc, platform)?)),
        }
    }

    /// The word of its Python. It takes no memory, as all that follow.
    pub fn python(&self) -> &str
        ensures { result.now ≡ self.now.python }
    {
        self.python.as_str()
    }

    /// The word of its platform.
    pub fn platform(&self) -> &str
        ensures { result.now ≡ self.now.platform }
    {
        self.platform.as_str()
    }

    /// The target.
    pub fn target(&self) -> &Target
        ensures target { result.now ≡ self.now.target }
        ensures read { target_of self.now.python self.now.platform ≡ Ok self.now.target }
    {
        &self.target
    }
}

/// Why two words name no target.
#[derive(Debug, Drop)]
pub enum CellError {
    /// The word of the Python is none.
    Python(Text),
    /// The word of the platform is none.
    Platform(Text),
    /// Memory ran out.
    Memory,
}

impl<E: Into<AllocError> + Drop> From<E> for CellError {
    ghost from_gives = { λ _ e. e ≡ refused.Memory };

    fn from(_refused: E) -> CellError {
        CellError::Memory
    }
}

/// The words of a list, as `3.11,3.12`, with `,` between them. It takes memory for a copy of each.
pub fn words(alloc: Global, text: &str) -> Result<Vec<Text>, AllocError>
    ensures { IfOk result (λ words. words.items ≡ words_in text.now) }
{
    let pieces = pieces(alloc, text)?;
    let mut words = Vec::with_capacity(alloc, pieces.len())?;
    for piece in &pieces {
        words.push(Text::copy_of(alloc, piece)?)?;
    }
    Ok(words)
}

fn pieces(alloc: Global, text: &str) -> Result<Vec<&str>, AllocError>
    ensures { IfOk result (λ pieces. map (λ piece. piece.now) pieces.items
        ≡ pieces_at 44 text.now) }
{
    text.split(',').collect(alloc)
}

/// The targets of each Python on each platform: the platform runs fastest. The first word that is
/// refused, in that order, refuses them all. It takes memory for each target and its words.
pub fn cells(alloc: Global, pythons: &[Text], platforms: &[Text]) -> Result<Vec<Cell>, CellError>
    ensures { Gives CellError.Memory (λ cells. cells.items) result
        (cells_of pythons.now platforms.now) }
{
    let mut cells = Vec::new(alloc);
    for python in pythons {
        push_cells(alloc, &mut cells, python, platforms)?;
    }
    Ok(cells)
}

/// Pushes the targets of a Python on each platform.
fn push_cells(
    alloc: Global,
    cells: &mut Vec<Cell>,
    python: &Text,
    platforms: &[Text],
) -> Result<(), CellError>
    ensures { Gives CellError.Memory (λ _. cells.new.items) result
        (before cells.old.items (cells_with python.now platforms.now)) }
{
    for platform in platforms {
        cells.push(Cell::parse(alloc, python.as_str(), platform.as_str())?)?;
    }
    Ok(())
}
