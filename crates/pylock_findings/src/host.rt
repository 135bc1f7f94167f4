//! The URLs of a lock that name another host than those that are asked for.

ghost use Rattle.std.specs.Prelude.{◌≡◌, ◌++◌, ◌<◌, IfOk, OnOk};
ghost use Rattle.std.specs.Char.{is_ascii_alphabetic};
ghost use Rattle.std.specs.List.{list_all, list_any};
ghost use Rattle.std.specs.Option.{option_copied};
ghost use Rattle.pytext.specs.Bytes.{starts};
ghost use Rattle.pylock_core.specs.Session.Picks.{lent_source};
ghost use Rattle.pylock_places.specs.Url.{behind_slashes};
ghost use Rattle.pylock_findings.specs.Host.{before_byte, behind_scheme, has_host_among};
ghost use Rattle.pylock_findings.specs.Host.{host_lines, host_of, is_host, is_plain, is_scheme};
ghost use Rattle.pylock_findings.specs.Host.{is_scheme_byte, other_url, other_urls, plain_host};
ghost use Rattle.pylock_findings.specs.Texts.{lent_texts};

use crate::lines::push_lines;
use pylock_audit::{FindingKind, LockFinding};
use pylock_core::{Entry, Lock, NamedSource, sources};
use pylock_shared::LabelledText;
use pylock_shown::{around, hidden};
use std::alloc::{AllocError, Global};

/// A line for each source's URL whose host is none of these, in the order of the entries and of
/// their sources: the URL as it is shown. ASCII letter case is ignored, and a port counts as it is
/// written. A URL whose host its readers may disagree about is none of them.
///
/// It takes memory for the sources of one entry at a time, and for the lines.
pub fn host_lines(
    alloc: Global,
    lock: &Lock,
    hosts: &[&str],
) -> Result<Vec<LockFinding>, AllocError>
    ensures { IfOk result (λ found. found.items
        ≡ host_lines (lent_texts hosts.now) lock.now.entries) }
{
    let mut found = Vec::new(alloc);
    for (place, entry) in lock.entries().iter().enumerate() {
        let urls = other_urls(alloc, hosts, entry)?;
        let kind = FindingKind::OtherHost;
        push_lines(alloc, &mut found, place + 1, entry.name(), kind, urls)?;
    }
    Ok(found)
}

/// The URLs of the entry's sources whose host is none of these.
fn other_urls(alloc: Global, hosts: &[&str], entry: &Entry) -> Result<Vec<LabelledText>, AllocError>
    ensures { IfOk result (λ urls. urls.items ≡ other_urls (lent_texts hosts.now) entry.now) }
{
    let sources = sources(alloc, entry)?;
    let mut urls = Vec::new(alloc);
    for named in &sources {
        push_other_url(alloc, &mut urls, hosts, *named)?;
    }
    Ok(urls)
}

/// Adds the URL of a source, where its host is none of these.
fn push_other_url(
    alloc: Global,
    urls: &mut Vec<LabelledText>,
    hosts: &[&str],
    named: NamedSource<'_>,
) -> Result<(), AllocError>
    ensures { OnOk result (urls.new.items ≡ urls.old.items
        ++ other_url (lent_texts hosts.now) (lent_source named.entry.source)) }
{
    match named.source.url() {
        Some(url) if !has_host_among(hosts, url) => {
            urls.push(LabelledText::plain(hidden(alloc, url)?))?;
        }
        _ => {}
    }
    Ok(())
}

/// Whether the host of the URL is one of these.
fn has_host_among(hosts: &[&str], url: &str) -> bool
    ensures { result ≡ has_host_among (lent_texts hosts.now) url.now }
{
    match host_of(url) {
        Some(host) => any_is(hosts, host),
        None => false,
    }
}

fn any_is(hosts: &[&str], host: &str) -> bool
    ensures { result ≡ list_any (is_host host.now) (lent_texts hosts.now) }
{
    for asked in hosts {
        if is_host(host, asked) {
            return true;
        }
    }
    false
}

fn is_host(host: &str, asked: &str) -> bool
    ensures { result ≡ is_host host.now asked.now }
{
    !host.is_empty() && host.as_bytes().eq_ignore_ascii_case(asked.as_bytes())
}

// ---- the host

/// The host of the URL, with its port, where no reader takes another.
fn host_of(url: &str) -> Option<&str>
    ensures { option_copied result ≡ host_of url.now }
{
    plain_host(before_byte(behind_scheme(url)?, b'/'))
}

/// What stands behind the scheme and its `://`.
fn behind_scheme(url: &str) -> Option<&str>
    ensures { option_copied result ≡ behind_scheme url.now }
{
    match around(url, b':') {
        Some((scheme, rest)) if is_scheme(scheme) => behind_slashes(rest),
        _ => None,
    }
}

fn behind_slashes(text: &str) -> Option<&str>
    ensures { option_copied result ≡ behind_slashes text.now }
{
    text.strip_prefix("//")
}

fn is_scheme(text: &str) -> bool
    ensures { result ≡ is_scheme text.now }
{
    starts_with_letter(text.as_bytes()) && has_scheme_bytes(text)
}

fn starts_with_letter(bytes: &[u8]) -> bool
    ensures { result ≡ starts is_ascii_alphabetic bytes.now }
{
    match bytes {
        [first, ..] => first.is_ascii_alphabetic(),
        [] => false,
    }
}

fn has_scheme_bytes(text: &str) -> bool
    ensures { result ≡ list_all is_scheme_byte text.now }
{
    text.bytes().all(|byte| is_scheme_byte(byte))
}

fn is_scheme_byte(byte: u8) -> bool
    ensures { result ≡ is_scheme_byte byte }
{
    byte.is_ascii_alphanumeric() || matches!(byte, b'+' | b'-' | b'.')
}

/// What stands before the first such byte, which is one of ASCII: all, where the text has none.
fn before_byte(text: &str, byte: u8) -> &str
    requires { byte < 128 }
    ensures { result.now ≡ before_byte byte text.now }
{
    match around(text, byte) {
        Some((front, _)) => front,
        None => text,
    }
}

/// The host of what stands before the first `/`.
fn plain_host(front: &str) -> Option<&str>
    ensures { option_copied result ≡ plain_host front.now }
{
    if has_plain_bytes(front) {
        Some(before_byte(before_byte(front, b'?'), b'#'))
    } else {
        None
    }
}

fn has_plain_bytes(text: &str) -> bool
    ensures { result ≡ list_all is_plain text.now }
{
    text.bytes().all(|byte| is_plain(byte))
}

fn is_plain(byte: u8) -> bool
    ensures { result ≡ is_plain byte }
{
    byte.is_ascii_graphic() && !matches!(byte, b'%' | b'@' | b'\\')
}
