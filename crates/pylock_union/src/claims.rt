//! What sources say of their files, and the first that an earlier one contradicts.

ghost use Rattle.std.specs.Prelude.{◌≡◌, ◌++◌, ◌∷◌, [], IfOk, List, None, OnOk, Some};
ghost use Rattle.std.specs.Prelude.{if◌then◌else◌, option_map};
ghost use Rattle.std.specs.BTreeMap.{get};
ghost use Rattle.std.specs.List.{find, flat_map};
ghost use Rattle.std.specs.Str.{bytes_eq};
ghost use Rattle.pylock_compare.specs.Texts.{texts_cmp};
ghost use Rattle.pylock_union.specs.Inner.{IsTable, all_claims, lent_claim};
ghost use Rattle.pylock_union.specs.Listed.{all_lent, lent};
ghost use Rattle.pylock_union.specs.Union.{ClaimValue, claim_key, claims_of, contradicts};
ghost use Rattle.pylock_union.specs.Union.{first_clash};

use crate::key::file_key;
use crate::listed::LockSource;
use pylock_compare::Key;
use std::alloc::{AllocError, Global};
use std::collections::BTreeMap;

/// What a source says of its file: that its hash of an algorithm is this value.
#[derive(Clone, Copy)]
pub(crate) struct Claim<'a> {
    pub(crate) source: LockSource<'a>,
    pub(crate) algorithm: &'a str,
    pub(crate) value: &'a str,
}

/// What these sources say of their files, in order.
pub(crate) fn claims_of<'a>(
    alloc: Global,
    list: &[LockSource<'a>],
) -> Result<Vec<Claim<'a>>, AllocError>
    ensures { IfOk result (λ claims. all_claims claims.items
        ≡ flat_map claims_of (all_lent list.now)) }
{
    let mut claims = Vec::with_capacity(alloc, list.len())?;
    for source in list {
        push_claims(&mut claims, source)?;
    }
    Ok(claims)
}

fn push_claims<'a>(claims: &mut Vec<Claim<'a>>, source: &LockSource<'a>) -> Result<(), AllocError>
    ensures { OnOk result (all_claims claims.new.items
        ≡ all_claims claims.old.items ++ claims_of (lent source.now)) }
{
    for (algorithm, value) in source.source.hashes() {
        claims.push(Claim {
            source: *source,
            algorithm: algorithm.as_str(),
            value: value.as_str(),
        })?;
    }
    Ok(())
}

/// The first claim that contradicts an earlier one, behind the first that it contradicts. It takes
/// memory for a table of the first claim of each file and algorithm.
pub(crate) fn first_clash<'a>(
    alloc: Global,
    claims: &[Claim<'a>],
) -> Result<Option<(Claim<'a>, Claim<'a>)>, AllocError>
    ensures { IfOk result (λ clash.
        option_map (λ pair. (lent_claim pair.0, lent_claim pair.1)) clash
        ≡ first_clash [] (all_claims claims.now)) }
{
    let mut table = BTreeMap::new(alloc);
    for claim in claims {
        if let Some(earlier) = put_claim(alloc, &mut table, claim)? {
            return Ok(Some((earlier, *claim)));
        }
    }
    Ok(None)
}

/// Puts a claim into the table of the first of each file and algorithm, or gives the first claim
/// that it contradicts.
fn put_claim<'a>(
    alloc: Global,
    table: &mut BTreeMap<Key<'a>, Claim<'a>>,
    claim: &Claim<'a>,
) -> Result<Option<Claim<'a>>, AllocError>
    ensures contradicted { IfOk result (λ found. (claims : List ClaimValue)
        → IsTable table.old claims
        → option_map lent_claim found ≡ find (contradicts (lent_claim claim.now)) claims) }
    ensures put { IfOk result (λ found. (claims : List ClaimValue) → IsTable table.old claims
        → found ≡ None → IsTable table.new (claims ++ lent_claim claim.now ∷ [])) }
{
    let key = claim_key(alloc, claim)?;
    match first_claim(table, &key) {
        Some(first) => Ok(contradicted(claim, first)),
        None => {
            table.insert(key, *claim)?;
            Ok(None)
        }
    }
}

/// The claim that the table has under a key.
fn first_claim<'a>(table: &BTreeMap<Key<'a>, Claim<'a>>, key: &Key<'a>) -> Option<Claim<'a>>
    ensures { result ≡ get texts_cmp table.now key.now }
{
    table.get(key).copied()
}

/// The first claim of the same file and algorithm, where it has another value.
fn contradicted<'a>(claim: &Claim<'a>, first: Claim<'a>) -> Option<Claim<'a>>
    ensures { option_map lent_claim result ≡ (if bytes_eq claim.now.value.now first.entry.value.now
        then None else Some (lent_claim first.entry)) }
{
    if claim.value == first.value {
        None
    } else {
        Some(first)
    }
}

/// What a claim is of: a file and an algorithm.
fn claim_key<'a>(alloc: Global, claim: &Claim<'a>) -> Result<Key<'a>, AllocError>
    ensures { IfOk result (λ key. key ≡ claim_key (lent_claim claim.now)) }
{
    let mut key = file_key(alloc, claim.source.source)?;
    key.push(Some(claim.algorithm.as_bytes()))?;
    Ok(key)
}
