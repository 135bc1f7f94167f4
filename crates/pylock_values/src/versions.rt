//! What a version is, as plain values (PEP 440).

ghost use Rattle.std.specs.Prelude.{◌≡◌, ◌≢◌, ◌≤◌, ◌-◌, [], IfOk, Ok, length, take};
ghost use Rattle.std.specs.List.{flat_map};
ghost use Rattle.pyver_core.specs.Version.FromParts.{version_from_parts};
ghost use Rattle.pyver_core.specs.Version.Hashing.{without_trailing_zeros};
ghost use Rattle.pyver_core.specs.Version.Normal.{decimal_text, dev_text, local_text};
ghost use Rattle.pyver_core.specs.Version.Normal.{normal_text, post_text, pre_text, segment_text};
ghost use Rattle.pyver_core.specs.Version.Parts.{release_alone};
ghost use Rattle.pylock_values.specs.Kind.{kind_of};
ghost use Rattle.pylock_values.specs.Parts.{base_length, base_with, form_of, high_word, low_word};
ghost use Rattle.pylock_values.specs.Parts.{numbers_of, pre_letter, pre_number, public_length};
ghost use Rattle.pylock_values.specs.Parts.{short_release, without_zeros, words};

use pyver_core::{LocalPart, PartsError, PlainVersion, PreKind, Version, VersionParts};
use std::alloc::{AllocError, Global};

/// What kind of release a version is, and how its text is written (PEP 440, "Pre-releases",
/// "Post-releases", "Developmental releases", "Normalization").
#[repr(C)]
#[derive(Clone, Copy)]
pub struct VersionKind {
    /// A pre-release or a developmental release.
    pub is_prerelease: bool,
    /// A post-release.
    pub is_postrelease: bool,
    /// A developmental release.
    pub is_devrelease: bool,
    /// The text is the version's normal form.
    pub is_normal: bool,
}

/// The kind of the version that a text spells. It takes no memory.
pub fn kind_of(version: &Version, text: &str) -> VersionKind
    ensures { result ≡ kind_of text.now version.now }
{
    VersionKind {
        is_prerelease: version.is_prerelease(),
        is_postrelease: version.is_postrelease(),
        is_devrelease: version.dev().is_some(),
        is_normal: version.text() == text,
    }
}

/// The kind of a version of which the text is the normal form. It takes no memory.
#[tactic(auto, using(crate::proofs::PartsLemmas::plain_kind))]
pub fn plain_kind(version: &PlainVersion, text: &str) -> VersionKind
    requires alone { version.now ≡ release_alone version.now.release }
    requires normal { normal_text version.now ≡ text.now }
    ensures { result ≡ kind_of text.now version.now }
{
    VersionKind {
        is_prerelease: false,
        is_postrelease: false,
        is_devrelease: false,
        is_normal: true,
    }
}

/// The normal form of a version; where it is to be short, of the version without the zeros at the
/// end of its release, of which the first number stays. That one is equal to it in order. It takes
/// memory for the text, and where it is to be short for a version, which it gives back.
pub fn normal_form(alloc: Global, version: &Version, short: bool) -> Result<Vec<u8>, AllocError>
    ensures { IfOk result (λ text. text.items ≡ normal_text (form_of short version.now)) }
{
    if short {
        short_form(alloc, version)
    } else {
        Vec::from_slice(alloc, version.text().as_bytes())
    }
}

/// The shorter epoch and release, and what stands behind the release in the normal form.
#[tactic(auto, using(crate::proofs::PartsLemmas::short_text))]
fn short_form(alloc: Global, version: &Version) -> Result<Vec<u8>, AllocError>
    ensures { IfOk result (λ text. text.items ≡ normal_text (without_zeros version.now)) }
{
    let base = base_length(version);
    let short = base_of(alloc, version.epoch(), short_release(version.release()))?;
    let mut text = Vec::from_slice(alloc, short.text().as_bytes())?;
    text.extend_from_slice(&version.text().as_bytes()[base..])?;
    Ok(text)
}

/// The version of an epoch and a release alone.
pub fn base_of(alloc: Global, epoch: u128, release: &[u128]) -> Result<Version, AllocError>
    requires { release.now ≢ [] }
    ensures { IfOk result (λ base. base ≡ base_with epoch release.now) }
{
    let parts = VersionParts {
        epoch,
        release: Vec::from_slice(alloc, release)?,
        pre: None,
        post: None,
        dev: None,
        local: Vec::new(alloc),
    };
    made_of(alloc, parts)
}

/// The version of these parts, of which there is one: only want of memory refuses them.
fn made_of(alloc: Global, parts: VersionParts) -> Result<Version, AllocError>
    requires { version_from_parts parts ≡ Ok parts }
    ensures { IfOk result (λ version. version ≡ parts) }
{
    match Version::from_parts(alloc, parts) {
        Ok(version) => Ok(version),
        Err(PartsError::Memory) => Err(AllocError),
        Err(PartsError::EmptyRelease | PartsError::LocalSegment) => unreachable!(),
    }
}

/// A release without the zeros at its end, of which the first number stays.
fn short_release(release: &[u128]) -> &[u128]
    ensures { result.now ≡ short_release release.now }
{
    let [_first, rest @ ..] = release else {
        return release;
    };
    release.split_at(1 + length_without_zeros(rest)).0
}

/// How many numbers there are without the zeros at the end.
#[tactic(auto, using(pyver_core::proofs::Lemmas::Version::Hashing::TrailingZeros::trailing_zeros))]
fn length_without_zeros(numbers: &[u128]) -> usize
    ensures fits { result ≤ length numbers.now }
    ensures left { take result numbers.now ≡ without_trailing_zeros numbers.now }
{
    let mut end = numbers.len();
    while end > 0 && numbers[end - 1] == 0 {
        end -= 1;
    }
    end
}

/// The parts of a version as numbers, each as its lower and its upper 64 bits, and where they stand
/// in the normal form (PEP 440, "Version scheme").
#[repr(C)]
#[derive(Clone, Copy)]
pub struct VersionNumbers {
    /// The length of the epoch and the release in the normal form.
    pub base: usize,
    /// The length of all but the local part there.
    pub public_end: usize,
    /// The epoch.
    pub epoch_low: u64,
    pub epoch_high: u64,
    /// The number of the pre-release, 0 where there is none.
    pub pre_low: u64,
    pub pre_high: u64,
    /// The number of the post-release, 0 where there is none.
    pub post_low: u64,
    pub post_high: u64,
    /// The number of the developmental release, 0 where there is none.
    pub dev_low: u64,
    pub dev_high: u64,
    /// The first letter of the pre-release, 0 where there is none.
    pub pre: u8,
    /// Whether there is a post-release.
    pub has_post: bool,
    /// Whether there is a developmental release.
    pub has_dev: bool,
}

impl VersionNumbers {
    /// The numbers of a version of which the text is the normal form. It takes no memory.
    #[tactic(auto, using(crate::proofs::PartsLemmas::plain_numbers))]
    pub fn of_plain(version: &PlainVersion, text: &str) -> VersionNumbers
        requires alone { version.now ≡ release_alone version.now.release }
        requires normal { normal_text version.now ≡ text.now }
        ensures { result ≡ numbers_of version.now }
    {
        VersionNumbers {
            base: text.len(),
            public_end: text.len(),
            epoch_low: 0,
            epoch_high: 0,
            pre_low: 0,
            pre_high: 0,
            post_low: 0,
            post_high: 0,
            dev_low: 0,
            dev_high: 0,
            pre: 0,
            has_post: false,
            has_dev: false,
        }
    }

    /// The numbers of a version but for those of its release. It takes no memory.
    pub fn of(version: &Version) -> VersionNumbers
        ensures { result ≡ numbers_of version.now }
    {
        let pre = pre_number(version.pre());
        let post = version.post().unwrap_or(0);
        let dev = version.dev().unwrap_or(0);
        VersionNumbers {
            base: base_length(version),
            public_end: public_length(version),
            epoch_low: low_word(version.epoch()),
            epoch_high: high_word(version.epoch()),
            pre_low: low_word(pre),
            pre_high: high_word(pre),
            post_low: low_word(post),
            post_high: high_word(post),
            dev_low: low_word(dev),
            dev_high: high_word(dev),
            pre: pre_letter(version.pre()),
            has_post: version.post().is_some(),
            has_dev: version.dev().is_some(),
        }
    }
}

/// How long the epoch and the release are in the normal form.
#[tactic(auto, using(crate::proofs::PartsLemmas::public_parts))]
fn base_length(version: &Version) -> usize
    ensures { result ≡ base_length version.now }
{
    let end = before_dev(public_length(version), version.dev());
    let end = before_post(end, version.post());
    before_pre(end, version.pre())
}

/// How long all but the local part is in the normal form.
#[tactic(auto, using(crate::proofs::PartsLemmas::local_behind))]
fn public_length(version: &Version) -> usize
    ensures { result ≡ public_length version.now }
{
    before_local(version.text().len(), version.local())
}

/// Where the pre-release begins in a normal form, by where it ends. The others tell the same of
/// other parts.
fn before_pre(end: usize, pre: Option<(PreKind, u128)>) -> usize
    requires { length (pre_text pre) ≤ end }
    ensures { result ≡ end - length (pre_text pre) }
{
    match pre {
        None => end,
        Some((PreKind::A | PreKind::B, number)) => before_number(end, number) - 1,
        Some((PreKind::Rc, number)) => before_number(end, number) - 2,
    }
}

fn before_post(end: usize, post: Option<u128>) -> usize
    requires { length (post_text post) ≤ end }
    ensures { result ≡ end - length (post_text post) }
{
    match post {
        None => end,
        Some(number) => before_number(end, number) - 5,
    }
}

fn before_dev(end: usize, dev: Option<u128>) -> usize
    requires { length (dev_text dev) ≤ end }
    ensures { result ≡ end - length (dev_text dev) }
{
    match dev {
        None => end,
        Some(number) => before_number(end, number) - 4,
    }
}

#[tactic(auto, using(crate::proofs::PartsLemmas::lengths_of_segments))]
fn before_local(end: usize, local: &[LocalPart]) -> usize
    requires { length (local_text local.now) ≤ end }
    ensures { result ≡ end - length (local_text local.now) }
{
    let mut left = end;
    for segment in local {
        left = before_segment(left, segment) - 1;
    }
    left
}

fn before_segment(end: usize, segment: &LocalPart) -> usize
    requires { length (segment_text segment.now) ≤ end }
    ensures { result ≡ end - length (segment_text segment.now) }
{
    match segment {
        LocalPart::Number(number) => before_number(end, *number),
        LocalPart::Text(text) => end - text.as_str().len(),
    }
}

#[tactic(auto, using(crate::proofs::PartsLemmas::lengths_of_digits))]
fn before_number(end: usize, number: u128) -> usize
    requires { length (decimal_text number) ≤ end }
    ensures { result ≡ end - length (decimal_text number) }
{
    let mut left = end;
    let mut value = number;
    while value >= 10 {
        left -= 1;
        value /= 10;
    }
    left - 1
}

fn pre_letter(pre: Option<(PreKind, u128)>) -> u8
    ensures { result ≡ pre_letter pre }
{
    match pre {
        None => 0,
        Some((PreKind::A, _)) => b'a',
        Some((PreKind::B, _)) => b'b',
        Some((PreKind::Rc, _)) => b'r',
    }
}

fn pre_number(pre: Option<(PreKind, u128)>) -> u128
    ensures { result ≡ pre_number pre }
{
    match pre {
        None => 0,
        Some((_, number)) => number,
    }
}

/// The first number that 64 bits don't hold.
const WORD: u128 = 18_446_744_073_709_551_616;

fn low_word(number: u128) -> u64
    ensures { result ≡ low_word number }
{
    (number % WORD) as u64
}

fn high_word(number: u128) -> u64
    ensures { result ≡ high_word number }
{
    (number / WORD) as u64
}

/// Numbers, each as its lower and its upper 64 bits. It takes memory for them.
pub fn words_of(alloc: Global, numbers: &[u128]) -> Result<Vec<u64>, AllocError>
    ensures { IfOk result (λ made. made.items ≡ flat_map words numbers.now) }
{
    let mut made = Vec::with_capacity(alloc, 2 * numbers.len())?;
    for number in numbers {
        made.push(low_word(*number))?;
        made.push(high_word(*number))?;
    }
    Ok(made)
}
