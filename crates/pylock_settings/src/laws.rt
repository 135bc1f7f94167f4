//! Laws of the definitions alone: each function's contract is a law, and its body is empty.

ghost use Rattle.std.specs.Prelude.{◌≡◌, ℕ, Err, List, Ok, Some, true};
ghost use Rattle.std.specs.Str.{is_utf8};
ghost use Rattle.toml.specs.Data.{Members, no_members};
ghost use Rattle.toml.specs.Parse.{parse_document};
ghost use Rattle.pylock_settings.specs.Reading.{audit_table, settings_of};
ghost use Rattle.pylock_settings.specs.Settings.{no_settings};
ghost use Rattle.pylock_settings.specs.declared.error.SettingsError.TheVariants.{Memory};

/// The reading of the settings is never out of memory: only a call may answer it.
#[tactic(auto, using(crate::proofs::NeverMemory::never_memory))]
pub fn answers_are_never_out_of_memory()
    ensures { (bytes : List ℕ) → settings_of bytes ≡ Err Memory → ⊥ }
{}

/// A project file whose table of settings isn't there or is empty is accepted, and says nothing.
#[tactic(auto, using(crate::proofs::AbsentLemmas::absent_settings))]
pub fn an_absent_table_says_nothing()
    ensures { (bytes : List ℕ) (document : Members) → is_utf8 bytes ≡ true
        → parse_document bytes ≡ Some document → audit_table document ≡ Ok no_members
        → settings_of bytes ≡ Ok no_settings }
{}
