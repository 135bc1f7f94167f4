//! The rules: what each kind of finding means, and how severe it is.

ghost use Rattle.std.specs.Prelude.{◌≡◌, IfSome};
ghost use Rattle.pylock_sarif.specs.Rule.{level_word};

/// How severe a result is (SARIF 2.1.0, section 3.27.10).
#[derive(Clone, Copy, Debug, PartialEq, Eq)]
pub enum Level {
    /// A problem: what is installed may be another thing than was locked, or a secret is told.
    Error,
    /// What a careful reader would change.
    Warning,
    /// What is only written in another form than PEP 751 has it.
    Note,
}

impl Level {
    /// The word of the level in a document (SARIF 2.1.0, section 3.27.10).
    pub fn word(self) -> &'static str
        ensures { result.now ≡ level_word self }
    {
        match self {
            Level::Error => "error",
            Level::Warning => "warning",
            Level::Note => "note",
        }
    }
}

/// A rule: a kind of finding (SARIF 2.1.0, section 3.49).
#[derive(Clone, Copy, Debug)]
pub struct Rule {
    /// The word of the kind, as `audit` prints it.
    pub word: &'static str,
    /// How severe its findings are.
    pub level: Level,
    /// What it finds, in one sentence.
    pub description: &'static str,
    /// What to do about it.
    pub help: &'static str,
}

/// The rules: a kind of finding of `audit` each, in the order in which it tells those of one entry.
pub const RULES: [Rule; 36] = [
    Rule {
        word: "lock-version",
        level: Level::Note,
        description: "The version of the lock's format isn't 1.0.",
        help: "Lock again with a tool that writes lock-version 1.0.",
    },
    Rule {
        word: "unknown-key",
        level: Level::Note,
        description: "PEP 751 has no key of this name.",
        help: "See whether the key is misspelled; what a tool adds belongs into a table tool.",
    },
    Rule {
        word: "wrong-type",
        level: Level::Warning,
        description: "A key has another type than PEP 751 gives it.",
        help: "Lock again with a tool that writes what PEP 751 says.",
    },
    Rule {
        word: "no-packages",
        level: Level::Warning,
        description: "The lock has no key packages.",
        help: "See whether the file is the whole lock; a lock without entries has an empty list.",
    },
    Rule {
        word: "name-form",
        level: Level::Note,
        description: "A name isn't in its normal form.",
        help: "Write the name in lower case, with a single hyphen between its parts.",
    },
    Rule {
        word: "version",
        level: Level::Warning,
        description: "A version isn't valid, or has a number past the limit.",
        help: "Write the version as PEP 440 has it.",
    },
    Rule {
        word: "marker-extra",
        level: Level::Warning,
        description: "A marker uses extra, which has no value in a lock.",
        help: "Write the marker with extras, as PEP 751 has it.",
    },
    Rule {
        word: "readings-differ",
        level: Level::Warning,
        description: "Installers read a marker in two ways, as texts or as versions.",
        help: "Compare such a variable by == and != with a text that is no version.",
    },
    Rule {
        word: "undeclared-name",
        level: Level::Warning,
        description: "A marker asks for an extra or a group that the lock doesn't declare.",
        help: "Declare the name in the lock's extras or dependency-groups, or correct the marker.",
    },
    Rule {
        word: "no-source",
        level: Level::Error,
        description: "An entry has no source.",
        help: "Lock again: the entry can't be installed.",
    },
    Rule {
        word: "several-sources",
        level: Level::Error,
        description: "An entry has sources of several kinds.",
        help: "Keep one of them: installers differ in which they take.",
    },
    Rule {
        word: "no-hash",
        level: Level::Warning,
        description: "A file has no hash.",
        help: "Lock again with hashes, by which an installer sees that it got what was locked.",
    },
    Rule {
        word: "weak-hash",
        level: Level::Warning,
        description: "A file has no hash of a strong algorithm.",
        help: "Lock again with sha256 or a stronger algorithm.",
    },
    Rule {
        word: "odd-hash",
        level: Level::Warning,
        description: "A hash has a comma or an equals sign.",
        help: "Lock again: other tools can't take such a hash.",
    },
    Rule {
        word: "bad-hash",
        level: Level::Error,
        description: "A hash has a value that its algorithm never gives.",
        help: "Lock again: no file has this hash.",
    },
    Rule {
        word: "no-wheel-name",
        level: Level::Warning,
        description: "The file name of a wheel can't be read, so it is never chosen.",
        help: "Lock again, or name the wheel as it is named on the index.",
    },
    Rule {
        word: "no-sdist-name",
        level: Level::Warning,
        description: "The file name of an sdist can't be read.",
        help: "Lock again, or name the sdist as it is named on the index.",
    },
    Rule {
        word: "other-name",
        level: Level::Error,
        description: "A file is of another package than its entry.",
        help: "See where the lock comes from: another package would be installed.",
    },
    Rule {
        word: "other-version",
        level: Level::Error,
        description: "A file is of another version than its entry.",
        help: "See where the lock comes from: another version would be installed.",
    },
    Rule {
        word: "same-file-name",
        level: Level::Warning,
        description: "Two files of an entry have the same name.",
        help: "Keep one of them.",
    },
    Rule {
        word: "unsafe-file-name",
        level: Level::Error,
        description: "A file name could lead out of its folder.",
        help: "See where the lock comes from: no index has such a name.",
    },
    Rule {
        word: "outside-path",
        level: Level::Warning,
        description: "A path leads out of the folder of the lock.",
        help: "Keep what is installed in the folder of the lock, or install it by its URL.",
    },
    Rule {
        word: "unsafe-subdirectory",
        level: Level::Error,
        description: "A subdirectory leads out of its source.",
        help: "See where the lock comes from: no tool writes such a path.",
    },
    Rule {
        word: "not-https",
        level: Level::Warning,
        description: "A URL isn't of HTTPS.",
        help: "Use the same URL with https.",
    },
    Rule {
        word: "credentials",
        level: Level::Error,
        description: "A URL has a user or a password.",
        help: "Take the password out of the lock and change it: who reads the lock has it.",
    },
    Rule {
        word: "secret-in-url",
        level: Level::Error,
        description: "A URL has a password or a token in its query.",
        help: "Take the secret out of the lock and change it: who reads the lock has it.",
    },
    Rule {
        word: "moving-commit",
        level: Level::Warning,
        description: "A commit isn't named by its hash.",
        help: "Lock again with the hash: a tag and a branch can move.",
    },
    Rule {
        word: "control-character",
        level: Level::Error,
        description: "A text has a control character.",
        help: "See where the lock comes from: a terminal may show such a text as another one.",
    },
    Rule {
        word: "clash",
        level: Level::Error,
        description: "In some environment two entries of one name are installed.",
        help: "Write markers that exclude each other.",
    },
    Rule {
        word: "may-clash",
        level: Level::Warning,
        description: "In some environment two entries of one name may be installed.",
        help: "See whether the markers exclude each other.",
    },
    Rule {
        word: "never",
        level: Level::Warning,
        description: "An entry is installed in no environment.",
        help: "Take the entry out, or correct its marker.",
    },
    Rule {
        word: "may-never",
        level: Level::Note,
        description: "An entry may be installed in no environment.",
        help: "See whether the marker is what was meant.",
    },
    Rule {
        word: "narrower-python",
        level: Level::Warning,
        description: "An entry needs a narrower range of Pythons than the lock.",
        help: "Narrow requires-python of the lock, or the marker of the entry.",
    },
    Rule {
        word: "may-be-narrower",
        level: Level::Note,
        description: "An entry may need a narrower range of Pythons than the lock.",
        help: "See whether requires-python of the lock and of the entry agree.",
    },
    Rule {
        word: "vulnerable",
        level: Level::Error,
        description: "An advisory affects the version of an entry.",
        help: "Lock a version that the advisory doesn't affect.",
    },
    Rule {
        word: "other-host",
        level: Level::Warning,
        description: "A file is on a host that isn't among those that are trusted.",
        help: "Lock from a trusted host, or trust this one.",
    },
];

/// The rule of this word; none where no rule has it. It takes no memory.
pub fn rule_of(word: &str) -> Option<&'static Rule>
    ensures { IfSome result (λ rule. rule.now.word.now ≡ word.now) }
{
    RULES.iter().find(|rule| rule.word == word)
}
