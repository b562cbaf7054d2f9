//! Making a map of a list of pairs at once.
ghost use Rattle.std.specs.Prelude.{◌≡◌, ◌<◌, ◌≤◌, [], IfOk, Some, length, map, vec_len};
ghost use Rattle.std.specs.List.{list_all};
ghost use Rattle.std.specs.List.Sorted.{IsNonDecreasingBy, IsPartitionPoint, IsPermutation, IsSortedByKey, IsStableByKey};
ghost use Rattle.std.specs.Option.{MatchOption};
ghost use Rattle.std.specs.Ordering.{nat_cmp};
ghost use Rattle.trie.specs.Building.{HaveTheirHashes, AreSmall, HaveOnePrefix, IsMadeOf, IsRun, bare, digits_of, hashed_pairs, is_like, pairs_in};
ghost use Rattle.trie.specs.Digits.{digit, digit_count, digits_number};
ghost use Rattle.trie.specs.Entries.{with_pairs};
ghost use Rattle.trie.specs.Holding.{made_of, pairs_of};
ghost use Rattle.trie.specs.Nodes.{node_of};

use crate::beside::{Beside, Side};
use crate::bucket::placed;
use crate::digits::{Bitmap, DIGITS, digit_at, digits_number};
use crate::node::{Inner, Slot, Unmade, branch_of, grown, make, room_for};
use crate::ticks::Ticks;
use cells::KeyHash;
use std::alloc::{AllocError, Global};
use std::sync::Arc;

/// A pair, or what owns one, beside the hash of its key, so that no key is hashed twice.
#[derive(Drop)]
pub struct Hashed<P> {
    hash: u64,
    pair: P,
}

/// Each pair beside the hash of its key, in the order of the list.
pub fn with_hashes<K: Ord + Drop, V: Drop, H: KeyHash<K>>(
    alloc: Global,
    pairs: Vec<(K, V)>,
) -> Result<Vec<Hashed<(K, V)>>, AllocError>
    ensures pairs { IfOk result (λ v. hashed_pairs v.items ≡ pairs.items) }
    ensures hashed { IfOk result (λ v. HaveTheirHashes H.hash_of v.items) }
    ensures small { IfOk result (λ v. AreSmall v.items) }
{
    let mut hashed = Vec::with_capacity(alloc, pairs.len())?;
    for pair in pairs {
        let hash = H::hash(&pair.0);
        hashed.push(Hashed { hash, pair })?;
    }
    Ok(hashed)
}

/// The pairs in the order of their hashes' digits, those of one hash in the order of the list.
///
/// Nodes are made in that order, and walks go in it. Where the pairs' owners are made in it, too, whoever goes from leaf
/// to leaf goes through memory from one end to the other.
pub fn in_digit_order<K: Drop, V: Drop>(
    pairs: Vec<Hashed<(K, V)>>,
) -> Result<Vec<Hashed<(K, V)>>, AllocError>
    ensures sorted { IfOk result (λ v. IsSortedByKey (λ one. digits_number one.hash) nat_cmp v.items) }
    ensures stable { IfOk result (λ v. IsStableByKey (λ one. digits_number one.hash) nat_cmp pairs.items v.items) }
    ensures same { IfOk result (λ v. IsPermutation pairs.items v.items) }
    ensures long { IfOk result (λ v. vec_len v ≡ vec_len pairs) }
{
    let mut sorted = pairs;
    sorted.sort_by_cached_key(|one| digits_number(one.hash))?;
    Ok(sorted)
}

/// Each pair with an owner of its own, in the order of the list.
pub fn with_owners<K: Drop, V: Drop>(
    alloc: Global,
    pairs: Vec<Hashed<(K, V)>>,
) -> Result<Vec<Hashed<Arc<(K, V)>>>, AllocError>
    ensures { IfOk result (λ v. map bare v.items ≡ pairs.items) }
{
    let mut owned = Vec::with_capacity(alloc, pairs.len())?;
    for Hashed { hash, pair } in pairs {
        let pair = Arc::new(alloc, pair)?;
        owned.push(Hashed { hash, pair })?;
    }
    Ok(owned)
}

/// Whether all pairs have the key of this one. Most lists are left at a first pair of another hash.
fn have_key_of<K: Ord, V>(pairs: &[Hashed<Arc<(K, V)>>], last: &Hashed<Arc<(K, V)>>) -> bool
    ensures { result ≡ list_all (λ one. is_like K.cmp one last.now) pairs.now }
{
    pairs.iter().all(|one| one.hash == last.hash && one.pair.0.cmp(&last.pair.0).is_eq())
}

/// The owners of the pairs in the order of their keys, those of one key in the order of the list.
fn in_key_order<K: Ord + Drop, V: Drop>(
    alloc: Global,
    pairs: &[Hashed<Arc<(K, V)>>],
) -> Result<Vec<Arc<(K, V)>>, AllocError>
    ensures { IfOk result (λ v. with_pairs K.cmp (pairs_of v.items) [] ≡ with_pairs K.cmp (pairs_in pairs.now) []) }
{
    let mut owners = Vec::with_capacity(alloc, pairs.len())?;
    for one in pairs {
        owners.push(one.pair.clone()?)?;
    }
    owners.sort_by(|one, other| one.0.cmp(&other.0))?;
    Ok(owners)
}

/// The entries of a bucket with these pairs: of pairs of one key the last stands. They are sorted first, so that each is put
/// at the end of those before it.
fn bucket_of<K: Ord + Drop, V: Drop>(
    alloc: Global,
    pairs: &[Hashed<Arc<(K, V)>>],
) -> Result<Vec<Arc<(K, V)>>, AllocError>
    ensures { IfOk result (λ v. pairs_of v.items ≡ with_pairs K.cmp (pairs_in pairs.now) []) }
{
    let sorted = in_key_order(alloc, pairs)?;
    let mut rising = Vec::with_capacity(alloc, sorted.len())?;
    for pair in &sorted {
        rising = placed(rising, pair)?;
    }
    Ok(rising)
}

/// A bit for each digit that pairs have at this depth.
fn digits_of<P>(pairs: &[Hashed<P>], depth: u32) -> Bitmap
    requires { depth < digit_count }
    ensures { result ≡ digits_of depth pairs.now }
{
    let mut bits = 0;
    for one in pairs {
        bits |= 1 << digit_at(one.hash, depth);
    }
    bits
}

/// Pairs that have one digit at a depth, and those after them.
#[derive(Drop)]
struct Run<'a, P> {
    digit: usize,
    pairs: &'a [Hashed<P>],
    rest: &'a [Hashed<P>],
}

/// How many pairs in front have no greater digit than this one at a depth where digits do not fall.
fn end_of<P>(pairs: &[Hashed<P>], depth: u32, most: usize) -> usize
    requires depth { depth < digit_count }
    requires rise { IsNonDecreasingBy (λ one. digit one.hash depth) pairs.now }
    ensures bound { result ≤ length pairs.now }
    ensures parted { IsPartitionPoint (λ one. digit one.hash depth ≤ most) (λ one. most < digit one.hash depth) pairs.now result }
{
    pairs.partition_point(|one| digit_at(one.hash, depth) <= most)
}

/// The pairs that have the digit of the first one at a depth where digits do not fall, and the rest; None where there is
/// no pair.
fn next_run<P>(pairs: &[Hashed<P>], depth: u32) -> Option<Run<'_, P>>
    requires depth { depth < digit_count }
    requires rise { IsNonDecreasingBy (λ one. digit one.hash depth) pairs.now }
    ensures { MatchOption result (pairs.now ≡ []) (λ run. IsRun depth pairs.now run.digit run.pairs.now run.rest.now) }
{
    let first = pairs.first()?;
    let digit = digit_at(first.hash, depth);
    let (pairs, rest) = pairs.split_at(end_of(pairs, depth, digit));
    Some(Run { digit, pairs, rest })
}

/// A node of its own, which nobody counts.
fn uncounted<K: Drop, V: Drop, S: Beside<K, V>>(
    alloc: Global,
    node: Unmade<K, V, Side<K, V, S>>,
) -> Result<Slot<K, V, S>, AllocError>
    ensures { IfOk result (λ slot. node_of slot ≡ Some (made_of node)) }
{
    make(alloc, node, &mut Ticks::new()).map(Some)
}

/// The slot of a prefix of this depth with these pairs, which stand in the order of their digits: of pairs of one key
/// the last. Each node is made once: none for no pair, a leaf for one key, a bucket where no digit is left, and else a
/// branch, with a child for each run of pairs that have one next digit.
pub fn slot_of<K: Ord + Drop, V: Drop, H: KeyHash<K>, S: Beside<K, V>>(
    alloc: Global,
    pairs: &[Hashed<Arc<(K, V)>>],
    depth: u32,
) -> Result<Slot<K, V, S>, AllocError>
    requires { HaveOnePrefix H.hash_of depth pairs.now }
    ensures { IfOk result (λ p. IsMadeOf H.hash_of K.cmp depth (pairs_in pairs.now) (node_of p)) }
{
    let Some(last) = pairs.last() else {
        return Ok(None);
    };
    if have_key_of(pairs, last) {
        return uncounted(alloc, Unmade::Leaf(Arc::try_clone(&last.pair)?));
    }
    if depth == DIGITS {
        return uncounted(
            alloc,
            Unmade::Inner(Inner::Bucket(bucket_of(alloc, pairs)?)),
        );
    }
    let mut made = room_for(alloc, digits_of(pairs, depth))?;
    let mut left = pairs;
    while let Some(Run { digit, pairs, rest }) = next_run(left, depth) {
        let child = slot_of::<K, V, H, S>(alloc, pairs, depth + 1);
        made = grown(made, digit, child)?;
        left = rest;
    }
    branch_of(alloc, made, &mut Ticks::new())
}
