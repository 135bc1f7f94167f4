//! Laws of the definitions, each a contract with nothing to run.
ghost use Rattle.std.specs.Prelude.{◌≡◌, ℕ, Contains, Err, List, Some, false, true};
ghost use Rattle.std.specs.List.{list_any};
ghost use Rattle.pyver_core.specs.Version.Order.{is_before};
ghost use Rattle.pyver_core.specs.Version.Parts.{Parts};
ghost use Rattle.pylock_advisories.specs.Evaluation.{is_included, least};
ghost use Rattle.pylock_advisories.specs.File.{advisories_of};
ghost use Rattle.pylock_advisories.specs.Reading.{advisory_in};
ghost use Rattle.pylock_advisories.specs.declared.error.AdvisoriesError.TheVariants as file;
ghost use Rattle.pylock_advisories.specs.declared.error.AdvisoryError.TheVariants as error;
ghost use Rattle.serde_json.specs.Data.{Data};
ghost use Rattle.pylock_advisories.specs.Steps.{Event, are_in_order, is_vulnerable, range_with};

/// A range includes the versions that the schema's evaluation finds vulnerable, which goes through
/// the events in order (the OSV schema, "Evaluation").
pub fn steps_agree()
    ensures { (v : Parts) (events : List Event) → are_in_order events ≡ true
        → is_included v (range_with events) ≡ is_vulnerable v events }
{}

/// The least of versions is one of them, and none of them stands before it.
pub fn least_stands_first()
    ensures given { (versions : List Parts) (v : Parts) → least versions ≡ Some v
        → Contains versions v }
    ensures first { (versions : List Parts) (v : Parts) → least versions ≡ Some v
        → list_any (λ w. is_before w v) versions ≡ false }
{}

/// The refusal “out of memory” is never what a file's JSON, or an advisory's, says.
pub fn answers_are_never_out_of_memory()
    ensures advisory { (d : Data) → advisory_in d ≡ Err error.Memory → ⊥ }
    ensures file { (bytes : List ℕ) → advisories_of bytes ≡ Err file.Memory → ⊥ }
{}
