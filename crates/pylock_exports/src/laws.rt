//! Laws of the definitions alone: each function's contract is a law, and its body is empty.

ghost use Rattle.std.specs.Prelude.{[], ◌≡◌, ◌∷◌, ℕ, List, Ok, Err, map};
ghost use Rattle.std.specs.List.{All, Contains, IsDistinct};
ghost use Rattle.std.specs.Str.{bytes_eq};
ghost use Rattle.pylock_exports.specs.Line.{IsLine};
ghost use Rattle.pylock_exports.specs.Listed.{ListedValue};
ghost use Rattle.pylock_exports.specs.Lists.{IsKept, keys, with_sources};
ghost use Rattle.pylock_exports.specs.Pip.{ReadsPlainly};
ghost use Rattle.pylock_exports.specs.Requirements.{Deals, header, part_of, requirement_line};
ghost use Rattle.pylock_exports.specs.Requirements.{requirements_lines};
ghost use Rattle.pylock_exports.specs.Texts.{format_lines, format_text};
ghost use Rattle.pylock_command.specs.declared.form.PlanFormat.{PlanFormat};
ghost use Rattle.pylock_command.specs.declared.form.PlanFormat.TheVariants as format;
ghost use Rattle.pylock_command.specs.declared.form.FileFormat.{FileFormat};
ghost use Rattle.pylock_exports.specs.declared.requirements.PlanPart.{PlanPart};
ghost use Rattle.pylock_exports.specs.declared.refusal.ExportError.TheVariants.{Memory};

/// Each line of a text has only what is allowed in its form.
#[tactic(auto, using(crate::proofs::LineLemmas::allowed_lines))]
pub fn lines_are_allowed()
    ensures { (form : PlanFormat) (sources : List ListedValue) (lines : List (List ℕ))
        → format_lines form sources ≡ Ok lines → All (IsLine form) lines }
{}

/// Whatever name and URL pip or a reader of RFC 3986 finds in a line of a requirements file, the
/// URL names the host that stands between `://` and the next `/`, and nothing else is found in it
/// than a subdirectory: no user, no other fragment, no algorithm and no egg.
pub fn nothing_else_is_found_in_a_line()
    ensures hashed { (sources : List ListedValue) (lines : List (List ℕ))
        → format_lines format.Requirements sources ≡ Ok lines → All ReadsPlainly lines }
    ensures local { (sources : List ListedValue) (lines : List (List ℕ))
        → format_lines format.RequirementsLocal sources ≡ Ok lines → All ReadsPlainly lines }
{}

/// A requirements file has its header, and then a line for each source of its part of the plan, in
/// their order.
#[tactic(auto, using(crate::proofs::LineLemmas::requirement_each))]
pub fn each_source_has_a_requirement()
    ensures { (part : PlanPart) (sources : List ListedValue) (lines : List (List ℕ))
        → requirements_lines part sources ≡ Ok lines
        → lines ≡ header ∷ map requirement_line (part_of part sources) }
{}

/// The two requirements files are the plan: behind their headers its lines are dealt out between
/// them, each into one of the two, in their order.
#[tactic(auto, using(crate::proofs::DealLemmas::dealt_lines))]
pub fn both_requirements_files_are_the_plan()
    ensures { (sources : List ListedValue) (hashed others : List (List ℕ))
        → format_lines format.Requirements sources ≡ Ok (header ∷ hashed)
        → format_lines format.RequirementsLocal sources ≡ Ok (header ∷ others)
        → Deals (map requirement_line sources) hashed others }
{}

/// A list keeps sources that it is given, each named in its own way; and of each source that lacks
/// nothing it keeps it, or one that is named as it is and has its value.
#[tactic(auto, using(crate::proofs::OnceLemmas::each_file))]
pub fn each_file_is_kept_once()
    ensures sources { (form : FileFormat) (sources kept : List ListedValue)
        → with_sources form [] sources ≡ Ok kept → All (Contains sources) kept }
    ensures once { (form : FileFormat) (sources kept : List ListedValue)
        → with_sources form [] sources ≡ Ok kept → IsDistinct bytes_eq (keys form kept) }
    ensures each { (form : FileFormat) (sources kept : List ListedValue)
        → with_sources form [] sources ≡ Ok kept → All (IsKept form kept) sources }
{}

/// The text of a form is never out of memory: only a call may answer it.
#[tactic(auto, using(crate::proofs::NeverMemory::never_memory))]
pub fn answers_are_never_out_of_memory()
    ensures { (form : PlanFormat) (sources : List ListedValue)
        → format_text form sources ≡ Err Memory → ⊥ }
{}
