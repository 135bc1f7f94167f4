//! What one source of an entry gives to each kind of finding. Findings of one source at a time are
//! one list over the sources, by the kind of finding.

ghost use Rattle.std.specs.Prelude.{◌≡◌, ◌++◌, ◌∷◌, [], IfOk, OnOk, codes, filter, map};
ghost use Rattle.std.specs.Prelude.{string_bytes};
ghost use Rattle.std.specs.List.{flat_map, list_all, list_any};
ghost use Rattle.std.specs.Option.{option_copied};
ghost use Rattle.pylock_readers.specs.Text.{text_pair, text_pairs};
ghost use Rattle.pylock_core.specs.Session.Picks.{lent_named, lent_source, source_hashes};
ghost use Rattle.pylock_places.specs.Shown.{source_text};
ghost use Rattle.pylock_shown.specs.Hidden.{hidden};
ghost use Rattle.pylock_audit.specs.Source.{algorithms, details, is_commit_hash, is_hash_digit};
ghost use Rattle.pylock_audit.specs.Source.{is_moving, is_open_url, is_text_told, is_told};
ghost use Rattle.pylock_audit.specs.Source.{over_sources, tested_hashes, text_of, text_where};
ghost use Rattle.pylock_audit.specs.Source.{told_text, weakly_hashed, without_hash};

use crate::control::push_controlled;
use crate::finding::{FindingKind, push_plain};
use crate::hash::{Hash, is_bad, is_odd, is_weak};
use crate::keys::source_key_path;
use crate::unsafe_text::{is_outside_path, is_unsafe_name, is_unsafe_path};
use pylock_core::{NamedSource, PickedSource};
use pylock_places::{
    has_credentials, has_secret, is_https, is_safe_remote, source_label, source_text,
};
use pylock_shared::{LabelledText, SharedText};
use pylock_shown::{hidden, push_hidden};
use std::alloc::{AllocError, Global};

// ---- hashes

/// What the source is, which findings share.
fn shared_text(alloc: Global, source: PickedSource<'_>) -> Result<SharedText, AllocError>
    ensures { IfOk result (λ text. text ≡ source_text (lent_source source.entry)) }
{
    SharedText::new(alloc, source_text(alloc, source)?)
}

/// Adds the label of a file, a space and a text that is shown.
fn push_labelled(
    alloc: Global,
    list: &mut Vec<LabelledText>,
    label: &SharedText,
    text: &str,
) -> Result<(), AllocError>
    ensures { OnOk result (list.new.items
        ≡ list.old.items ++ (label.now ++ codes " " ++ text.now) ∷ []) }
{
    let rest = format!(in alloc; " {text}")?;
    list.push(LabelledText::new(label, rest)?)?;
    Ok(())
}

/// Adds a file that has no hash.
fn push_without_hash(
    alloc: Global,
    list: &mut Vec<LabelledText>,
    source: PickedSource<'_>,
) -> Result<(), AllocError>
    ensures { OnOk result (list.new.items ≡ list.old.items
        ++ without_hash (lent_source source.entry) (source_hashes (lent_source source.entry))) }
{
    if source.hashes().is_empty() && !source.is_unhashed() {
        push_plain(list, source_text(alloc, source)?)?;
    }
    Ok(())
}

/// Adds a file that has no hash of a strong algorithm, with its algorithms.
fn push_weakly_hashed(
    alloc: Global,
    list: &mut Vec<LabelledText>,
    source: PickedSource<'_>,
) -> Result<(), AllocError>
    ensures { OnOk result (list.new.items ≡ list.old.items
        ++ weakly_hashed (lent_source source.entry) (source_hashes (lent_source source.entry))) }
{
    let hashes = source.hashes();
    if !hashes.is_empty() && is_weak(hashes) {
        let label = shared_text(alloc, source)?;
        push_labelled(alloc, list, &label, algorithms(alloc, hashes)?.as_str())?;
    }
    Ok(())
}

/// The algorithms as they are shown, joined by `,`.
fn algorithms(alloc: Global, hashes: &[Hash]) -> Result<String, AllocError>
    ensures { IfOk result (λ text. string_bytes text ≡ algorithms (text_pairs hashes.now)) }
{
    let Some((first, rest)) = hashes.split_first() else {
        return Ok(String::new(alloc));
    };
    let mut text = hidden(alloc, first.0.as_str())?;
    push_more(&mut text, rest)?;
    Ok(text)
}

fn push_more(text: &mut String, hashes: &[Hash]) -> Result<(), AllocError>
    ensures { OnOk result (string_bytes text.new ≡ string_bytes text.old
        ++ flat_map (λ hash. codes "," ++ hidden hash.0) (text_pairs hashes.now)) }
{
    for hash in hashes {
        text.push_str(",")?;
        push_hidden(text, hash.0.as_str())?;
    }
    Ok(())
}

/// Adds the hashes that this kind of finding tells of.
fn push_tested_hashes(
    alloc: Global,
    list: &mut Vec<LabelledText>,
    kind: FindingKind,
    source: PickedSource<'_>,
) -> Result<(), AllocError>
    ensures { OnOk result (list.new.items ≡ list.old.items
        ++ tested_hashes kind (lent_source source.entry)
        (source_hashes (lent_source source.entry))) }
{
    let hashes = source.hashes();
    if !any_told(kind, hashes) {
        return Ok(());
    }
    let label = shared_text(alloc, source)?;
    push_told_hashes(alloc, list, kind, &label, hashes)
}

/// Whether this kind of finding tells of one of the hashes.
fn any_told(kind: FindingKind, hashes: &[Hash]) -> bool
    ensures { result ≡ list_any (is_told kind) (text_pairs hashes.now) }
{
    for hash in hashes {
        if is_told(kind, hash) {
            return true;
        }
    }
    false
}

/// Adds those of which it tells, of a file that is called so.
fn push_told_hashes(
    alloc: Global,
    list: &mut Vec<LabelledText>,
    kind: FindingKind,
    label: &SharedText,
    hashes: &[Hash],
) -> Result<(), AllocError>
    ensures { OnOk result (list.new.items ≡ list.old.items
        ++ map (λ hash. label.now ++ codes " " ++ hidden hash.0)
        (filter (is_told kind) (text_pairs hashes.now))) }
{
    for hash in hashes {
        if is_told(kind, hash) {
            let algorithm = hidden(alloc, hash.0.as_str())?;
            push_labelled(alloc, list, label, algorithm.as_str())?;
        }
    }
    Ok(())
}

/// Whether this kind of finding tells of the hash.
fn is_told(kind: FindingKind, hash: &Hash) -> bool
    ensures { result ≡ is_told kind (text_pair hash.now) }
{
    match kind {
        FindingKind::OddHash => is_odd(hash),
        FindingKind::BadHash => is_bad(hash),
        _ => false,
    }
}

// ---- names, paths, URLs and commits

/// Whether anybody on the way may change what the URL names.
fn is_open_url(source: PickedSource<'_>, url: &str) -> bool
    ensures { result ≡ is_open_url (lent_source source.entry) url.now }
{
    !(is_https(url) || source.vcs().is_some() && is_safe_remote(url))
}

/// Whether a commit is named by its hash.
fn is_commit_hash(text: &str) -> bool
    ensures { result ≡ is_commit_hash text.now }
{
    (text.len() == 40 || text.len() == 64) && has_hex_digits(text)
}

fn has_hex_digits(text: &str) -> bool
    ensures { result ≡ list_all is_hash_digit text.now }
{
    text.bytes()
        .all(|b| matches!(b, b'0'..=b'9' | b'a'..=b'f' | b'A'..=b'F'))
}

/// Whether the commit of a checkout isn't one for all time.
fn is_moving(source: PickedSource<'_>, commit: &str) -> bool
    ensures { result ≡ is_moving (lent_source source.entry) commit.now }
{
    matches!(source.vcs_kind(), Some("git" | "hg")) && !is_commit_hash(commit)
}

/// The text of a source that a kind of finding looks at.
fn text_of<'a>(kind: FindingKind, source: PickedSource<'a>) -> Option<&'a str>
    ensures { option_copied result ≡ text_of kind (lent_source source.entry) }
{
    match kind {
        FindingKind::UnsafeFileName => source.file_name(),
        FindingKind::OutsidePath => source.path(),
        FindingKind::UnsafeSubdirectory => source.subdirectory(),
        FindingKind::NotHttps | FindingKind::Credentials | FindingKind::SecretInUrl => source.url(),
        FindingKind::MovingCommit => source.commit_id(),
        _ => None,
    }
}

/// Whether it tells of that text.
fn is_text_told(kind: FindingKind, source: PickedSource<'_>, text: &str) -> bool
    ensures { result ≡ is_text_told kind (lent_source source.entry) text.now }
{
    match kind {
        FindingKind::UnsafeFileName => is_unsafe_name(text),
        FindingKind::OutsidePath => is_outside_path(text),
        FindingKind::UnsafeSubdirectory => is_unsafe_path(text),
        FindingKind::NotHttps => is_open_url(source, text),
        FindingKind::Credentials => has_credentials(text),
        FindingKind::SecretInUrl => has_secret(text),
        FindingKind::MovingCommit => is_moving(source, text),
        _ => false,
    }
}

/// How it tells of that text.
fn told_text(
    alloc: Global,
    kind: FindingKind,
    named: NamedSource<'_>,
    text: &str,
) -> Result<String, AllocError>
    ensures { IfOk result (λ told. string_bytes told
        ≡ told_text kind (lent_named named.entry) text.now) }
{
    match kind {
        FindingKind::UnsafeFileName => source_label(alloc, named.source),
        FindingKind::SecretInUrl => source_key_path(alloc, named.name, "url"),
        _ => hidden(alloc, text),
    }
}

/// Adds the text of a source that a kind of finding looks at, where it tells of that.
fn push_text(
    alloc: Global,
    list: &mut Vec<LabelledText>,
    kind: FindingKind,
    named: NamedSource<'_>,
) -> Result<(), AllocError>
    ensures { OnOk result (list.new.items ≡ list.old.items
        ++ text_where (is_text_told kind (lent_source named.entry.source))
        (told_text kind (lent_named named.entry))
        (text_of kind (lent_source named.entry.source))) }
{
    match text_of(kind, named.source) {
        Some(text) if is_text_told(kind, named.source, text) => {
            push_plain(list, told_text(alloc, kind, named, text)?)
        }
        _ => Ok(()),
    }
}

// ---- the rows

/// Adds what a source gives to a kind of finding that looks at each source by itself.
fn push_details(
    alloc: Global,
    list: &mut Vec<LabelledText>,
    kind: FindingKind,
    named: NamedSource<'_>,
) -> Result<(), AllocError>
    ensures { OnOk result (list.new.items
        ≡ list.old.items ++ details kind (lent_named named.entry)) }
{
    let NamedSource { name, source } = named;
    match kind {
        FindingKind::NoHash => push_without_hash(alloc, list, source),
        FindingKind::WeakHash => push_weakly_hashed(alloc, list, source),
        FindingKind::OddHash | FindingKind::BadHash => {
            push_tested_hashes(alloc, list, kind, source)
        }
        FindingKind::ControlCharacter => push_controlled(alloc, list, name, source),
        _ => push_text(alloc, list, kind, named),
    }
}

/// What the sources of an entry give to a kind of finding.
pub(crate) fn over_sources(
    alloc: Global,
    kind: FindingKind,
    sources: &[NamedSource<'_>],
) -> Result<Vec<LabelledText>, AllocError>
    ensures { IfOk result (λ list. list.items
        ≡ over_sources kind (map lent_named sources.now)) }
{
    let mut list = Vec::new(alloc);
    for named in sources {
        push_details(alloc, &mut list, kind, *named)?;
    }
    Ok(list)
}
