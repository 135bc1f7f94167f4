//! Laws of the definitions alone: each function's contract is a law, and its body is empty.

ghost use Rattle.std.specs.Prelude.{◌≡◌, ◌++◌, ℕ, List, Ok, Option, None, Some, codes, false};
ghost use Rattle.serde_json.specs.Data.{Data};
ghost use Rattle.serde_json.specs.Find.{get_member};
ghost use Rattle.serde_json.specs.Read.{read};
ghost use Rattle.serde_json.specs.Written.{compact_text};
ghost use Rattle.pylock_json.specs.Json.{members_of, texts_of};
ghost use Rattle.pylock_messages.specs.Diagnostic.{DiagnosticValue};
ghost use Rattle.pylock_readers.specs.Environment.{env_of};
ghost use Rattle.pylock_readers.specs.Target.{target_environment};
ghost use Rattle.pywheel_core.specs.Target.Reading.{target_of};
ghost use Rattle.pywheel_core.specs.Target.Tags.{target_tags};
ghost use Rattle.pywheel_core.specs.Target.Value.{TargetValue};
ghost use Rattle.pylock_documents.specs.Documents.{is_refusal_key, refused_rows};
ghost use Rattle.pylock_documents.specs.Environment.{target_text};
ghost use Rattle.pylock_documents.specs.Safe.{IsWritten, safe_json};

/// Whatever is told of a refusal, its document has the words, and beside them no member but those
/// that may tell of it.
pub fn refusals_have_their_words()
    ensures words { (words : List (List ℕ)) (diagnostic : Option DiagnosticValue)
        → get_member (codes "refused") (members_of (refused_rows words diagnostic))
        ≡ Some (texts_of words) }
    ensures others { (key : List ℕ) (words : List (List ℕ)) (diagnostic : Option DiagnosticValue)
        → is_refusal_key key ≡ false
        → get_member key (members_of (refused_rows words diagnostic)) ≡ None }
{}

/// A line of safe JSON reads as the JSON that it was made of.
#[tactic(auto, using(crate::proofs::ReadLemmas::reads_back))]
pub fn safe_json_reads_back()
    ensures { (d : Data) → IsWritten d
        → read (safe_json (compact_text d) ++ codes "\n") ≡ read (compact_text d) }
{}

/// The text of a target's environment is read as this very environment and list of tags.
#[tactic(auto, using(crate::proofs::EnvironmentLemmas::read_text_back))]
pub fn target_text_is_read_back()
    ensures { (python platform : List ℕ) (target : TargetValue)
        → target_of python platform ≡ Ok target
        → env_of (target_text target) ≡ Ok (target_environment target, target_tags target) }
{}
