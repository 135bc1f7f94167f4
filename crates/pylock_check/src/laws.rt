//! Laws of the definitions alone: each function's contract is a law, and its body is empty.

ghost use Rattle.std.specs.Prelude.{◌≡◌, ℕ, Err, List, Ok};
ghost use Rattle.std.specs.List.{All, Contains};
ghost use Rattle.pylock_check.specs.Groups.{LeadsOver};
ghost use Rattle.pylock_check.specs.Project.{ProjectValue, SectionValue};
ghost use Rattle.pylock_check.specs.Reading.{project_of};
ghost use Rattle.pylock_check.specs.declared.error.ProjectError.TheVariants.{Memory};

/// The reading of a project file is never out of memory: only a call may answer it.
#[tactic(auto, using(crate::proofs::NeverMemory::never_memory))]
pub fn answers_are_never_out_of_memory()
    ensures { (bytes : List ℕ) → project_of bytes ≡ Err Memory → ⊥ }
{}

/// No chain of includes comes back to its beginning: no dependency group of a project includes
/// itself, over others or not.
pub fn no_group_includes_itself()
    ensures { (bytes : List ℕ) (project : ProjectValue) → project_of bytes ≡ Ok project
        → (group : SectionValue) (between : List SectionValue) → Contains project.groups group
        → All (Contains project.groups) between → LeadsOver group between group → ⊥ }
{}
