//! The way down a tree to the longest route around an address.
ghost use Rattle.std.specs.Prelude.{◌≡◌, ◌⊎◌, ◌↔◌, ◌<◌, ◌≤◌, ◌^◌, ℕ, ◌+◌, ◌-◌, ◌*◌, take, drop, length, IfNone, IfSome, MatchOption};
ghost use Rattle.art_bytes.specs.Text.{IsPrefixOf};
ghost use Rattle.art_arena.specs.Arena.{HeldLeaf, held};
ghost use Rattle.art_arena.specs.InnerRef.{inner_shown};
ghost use Rattle.art_routes.specs.Keys.{key_text};
ghost use Rattle.art_steps.specs.Art.{IsArt};
ghost use Rattle.art_steps.specs.Dictionary.{HasKeys};
ghost use Rattle.art_tree.specs.Entries.{entries_of};
ghost use Rattle.art_routes.specs.Ends.{HasChild, IsNextChild, NoEndOf};
ghost use Rattle.art_routes.specs.Networks.{IsNetwork};
ghost use Rattle.art_routes.specs.Readings.{most_visits};
ghost use Rattle.art_routes.specs.Tables.{IsLongestOver, IsShortest, NoneContains, NoneCovers, route_now};
ghost use Rattle.art_routes.specs.Ways.{IsEndAt, IsEndRoute, IsFirstEnd, IsLastEnd, IsLongestBelow, IsShortestBelow, IsWayTree, NoEnd, NoneBelow};

use crate::address::Address;
use crate::ends::{longest_end, next_end, shorter};
use crate::network::{Network, covers_bits};
use crate::route_key::{RouteKey, TEXT_LEN, end_byte, network_from, text_of};
use art_tree::{
    ArenaReader, InnerNodeRead, InnerNodeSorted, InnerRef, NodeRef, OpaqueNodePtr, laws,
};

/// How many bytes of its prefix a node stores: all of it, since no key has more.
pub(crate) const PREFIX_LEN: usize = TEXT_LEN;

/// A node of the tree of a table.
pub(crate) type RouteNode<V> = OpaqueNodePtr<RouteKey, V, PREFIX_LEN>;

// How many routes around an address of so many bits may end at a place of its key.
fn ends_at(most: u8, place: usize) -> u8
    requires most { most ≤ 128 }
    requires place { place ≤ 20 }
    ensures few { result ≤ 7 }
    ensures ends { (rest : ℕ) → (rest < result) ↔ IsEndAt most place rest }
{
    if place == 0 {
        return 0;
    }
    let before = 7 * (place as u8 - 1);
    if before > most {
        return 0;
    }
    (most - before + 1).min(7)
}

// The child of a sorted node under the first of a byte and those of ever fewer bits that has one.
fn last_sorted<V, const SIZE: usize>(
    node: &InnerNodeSorted<RouteKey, V, PREFIX_LEN, SIZE>,
    longest: u8,
) -> Option<RouteNode<V>>
    ensures none { IfNone result (NoEndOf (HasChild node.now.children) longest) }
    ensures some { IfSome result (IsNextChild node.now.children longest) }
{
    let _sound = node.header();
    let (bytes, _) = node.initialized_portion();
    let end = next_end(bytes, longest)?;
    node.lookup_child(end)
}

// The same of any node, one byte after another.
fn last_looked_up<V>(
    node: &InnerRef<'_, RouteKey, V, PREFIX_LEN>,
    longest: u8,
) -> Option<RouteNode<V>>
    ensures none { IfNone result (NoEndOf (HasChild (inner_shown node.now).children) longest) }
    ensures some { IfSome result (IsNextChild (inner_shown node.now).children longest) }
{
    let mut end = longest;
    'down: loop {
        if let Some(child) = node.lookup_child(end) {
            return Some(child);
        }
        if end == 0 {
            return None;
        }
        end = shorter(end);
    }
}

// The same, however the node keeps its children.
fn next_child<V>(node: &InnerRef<'_, RouteKey, V, PREFIX_LEN>, longest: u8) -> Option<RouteNode<V>>
    ensures none { IfNone result (NoEndOf (HasChild (inner_shown node.now).children) longest) }
    ensures some { IfSome result (IsNextChild (inner_shown node.now).children longest) }
{
    match *node {
        InnerRef::Node4(node) => last_sorted(node, longest),
        InnerRef::Node16(node) => last_sorted(node, longest),
        InnerRef::Node48(_) | InnerRef::Node256(_) => last_looked_up(node, longest),
    }
}

// The child of the longest route around an address that ends at this place of its key.
fn last_end<V>(
    node: &InnerRef<'_, RouteKey, V, PREFIX_LEN>,
    address: Address,
    most: u8,
    key: &[u8],
    place: usize,
) -> Option<RouteNode<V>>
    requires family { (address.width ≡ 32) ⊎ (address.width ≡ 128) }
    requires fits { address.bits < 2 ^ address.width }
    requires within { most ≤ address.width }
    requires key { key.now ≡ key_text (record { address = address; length = most }) }
    requires place { place ≤ 20 }
    ensures none { IfNone result (NoEnd address most place (inner_shown node.now).children) }
    ensures some { IfSome result (IsLastEnd address most place (inner_shown node.now).children) }
{
    let longest = longest_end(key, place)?;
    next_child(node, longest)
}

// The child of the shortest route around an address that ends at this place of its key.
fn first_end<V>(
    node: &InnerRef<'_, RouteKey, V, PREFIX_LEN>,
    address: Address,
    most: u8,
    place: usize,
) -> Option<RouteNode<V>>
    requires most { most ≤ 128 }
    requires family { (address.width ≡ 32) ⊎ (address.width ≡ 128) }
    requires fits { address.bits < 2 ^ address.width }
    requires place { place ≤ 20 }
    ensures none { IfNone result (NoEnd address most place (inner_shown node.now).children) }
    ensures some { IfSome result (IsFirstEnd address most place (inner_shown node.now).children) }
{
    for rest in 0..ends_at(most, place) {
        if let Some(child) = node.lookup_child(end_byte(address, place - 1, rest)) {
            return Some(child);
        }
    }
    None
}

// The place behind the prefix of a node, where the key goes on with it.
fn place_behind<V>(
    node: &InnerRef<'_, RouteKey, V, PREFIX_LEN>,
    key: &[u8],
    depth: usize,
) -> Option<usize>
    requires depth { depth ≤ length key.now }
    ensures none { IfNone result (IsPrefixOf (inner_shown node.now).stored (drop depth key.now) → ⊥) }
    ensures place { IfSome result (λ place. place ≡ depth + length (inner_shown node.now).stored) }
    ensures within { IfSome result (λ place. place ≤ length key.now) }
    ensures matched { IfSome result (λ place. IsPrefixOf (inner_shown node.now).stored (drop depth key.now)) }
{
    let prefix = node.stored_prefix();
    let rest = &key[depth..];
    if rest.starts_with(prefix) {
        Some(depth + prefix.len())
    } else {
        None
    }
}

// The longest route around an address that ends at this place of its key: the leaf of a child of a node, at which it
// looks.
fn route_at_end<'a, V>(
    reader: &mut ArenaReader<'a, RouteKey, V, PREFIX_LEN>,
    node: &InnerRef<'a, RouteKey, V, PREFIX_LEN>,
    address: Address,
    most: u8,
    key: &[u8],
    place: usize,
) -> Option<(Network, &'a V)>
    requires family { (address.width ≡ 32) ⊎ (address.width ≡ 128) }
    requires fits { address.bits < 2 ^ address.width }
    requires within { most ≤ address.width }
    requires key { key.now ≡ key_text (record { address = address; length = most }) }
    requires place { place ≤ 20 }
    requires leaf { (child : _) → IsLastEnd address most place (inner_shown node.now).children child →
        (leaf : _) × (held reader.old.arena child ≡ HeldLeaf leaf) }
    requires budget { 0 < reader.old.budget }
    ensures found { MatchOption result (NoEnd address most place (inner_shown node.now).children)
        (λ route. IsEndRoute reader.old.arena address most place (inner_shown node.now).children (route_now route)) }
    ensures visits { MatchOption result (reader.new.budget ≡ reader.old.budget)
        (λ route. reader.new.budget + 1 ≡ reader.old.budget) }
    ensures same_arena { reader.new.arena ≡ reader.old.arena }
{
    let child = last_end(node, address, most, key, place)?;
    match reader.look(child) {
        NodeRef::LeafNode(leaf) => Some((network_from(leaf.key_ref()), leaf.value_ref())),
        _ => None,
    }
}

/// The longest route that covers the first bits of an address, so many of them, below a node on the way of their key.
///
/// Looks at each node on the way once, and at one leaf more. So all of them are at most one more than the key has bytes.
pub(crate) fn longest_below<'a, V>(
    reader: &mut ArenaReader<'a, RouteKey, V, PREFIX_LEN>,
    at: RouteNode<V>,
    address: Address,
    most: u8,
    key: &[u8],
    depth: usize,
) -> Option<(Network, &'a V)>
    requires family { (address.width ≡ 32) ⊎ (address.width ≡ 128) }
    requires fits { address.bits < 2 ^ address.width }
    requires within { most ≤ address.width }
    requires key { key.now ≡ key_text (record { address = address; length = most }) }
    requires depth { depth < length key.now }
    requires tree { (tree : _) × IsWayTree reader.old.arena (take depth key.now) at tree }
    requires budget { length key.now < depth + reader.old.budget }
    ensures longest { (tree : _) → IsWayTree reader.old.arena (take depth key.now) at tree →
        MatchOption result (NoneBelow tree (record { address = address; length = most }))
        (λ route. IsLongestBelow reader.old.arena tree (record { address = address; length = most }) (route_now route)) }
    ensures visits { MatchOption result (reader.old.budget + depth ≤ reader.new.budget + length key.now)
        (λ route. reader.old.budget + depth ≤ reader.new.budget + length key.now + 1) }
    ensures same_arena { reader.new.arena ≡ reader.old.arena }
{
    let node = reader.look(at);
    if let NodeRef::LeafNode(leaf) = node {
        let network = network_from(leaf.key_ref());
        return if covers_bits(&network, address, most) {
            Some((network, leaf.value_ref()))
        } else {
            None
        };
    }
    let inner = node.inner()?;
    let place = place_behind(&inner, key, depth)?;
    if key.len() <= place + 1 {
        return route_at_end(reader, &inner, address, most, key, place);
    }
    let Some(child) = inner.lookup_child(key[place]) else {
        return route_at_end(reader, &inner, address, most, key, place);
    };
    match longest_below(reader, child, address, most, key, place + 1) {
        Some(found) => Some(found),
        None => route_at_end(reader, &inner, address, most, key, place),
    }
}

/// The shortest route that covers the first bits of an address, so many of them, below a node on the way of their key.
///
/// Looks at each node on the way once, and at one leaf.
pub(crate) fn shortest_below<'a, V>(
    reader: &mut ArenaReader<'a, RouteKey, V, PREFIX_LEN>,
    at: RouteNode<V>,
    address: Address,
    most: u8,
    key: &[u8],
    depth: usize,
) -> Option<(Network, &'a V)>
    requires family { (address.width ≡ 32) ⊎ (address.width ≡ 128) }
    requires fits { address.bits < 2 ^ address.width }
    requires within { most ≤ address.width }
    requires key { key.now ≡ key_text (record { address = address; length = most }) }
    requires depth { depth < length key.now }
    requires tree { (tree : _) × IsWayTree reader.old.arena (take depth key.now) at tree }
    requires budget { length key.now < depth + reader.old.budget }
    ensures shortest { (tree : _) → IsWayTree reader.old.arena (take depth key.now) at tree →
        MatchOption result (NoneBelow tree (record { address = address; length = most }))
        (λ route. IsShortestBelow reader.old.arena tree (record { address = address; length = most }) (route_now route)) }
    ensures visits { reader.old.budget + depth ≤ reader.new.budget + length key.now + 1 }
    ensures same_arena { reader.new.arena ≡ reader.old.arena }
{
    let node = reader.look(at);
    if let NodeRef::LeafNode(leaf) = node {
        let network = network_from(leaf.key_ref());
        return if covers_bits(&network, address, most) {
            Some((network, leaf.value_ref()))
        } else {
            None
        };
    }
    let inner = node.inner()?;
    let place = place_behind(&inner, key, depth)?;
    if let Some(child) = first_end(&inner, address, most, place) {
        return match reader.look(child) {
            NodeRef::LeafNode(leaf) => Some((network_from(leaf.key_ref()), leaf.value_ref())),
            _ => None,
        };
    }
    if key.len() <= place + 1 {
        return None;
    }
    let child = inner.lookup_child(key[place])?;
    shortest_below(reader, child, address, most, key, place + 1)
}

/// The longest route that covers the first bits of an address, so many of them, in the tree at a root: one way down, of
/// at most one node more than their key has bytes, which are 6 for IPv4 and 20 for IPv6 at most. Takes no memory.
pub(crate) fn longest_in<'a, V>(
    reader: &mut ArenaReader<'a, RouteKey, V, PREFIX_LEN>,
    root: Option<RouteNode<V>>,
    address: Address,
    length: u8,
) -> Option<(Network, &'a V)>
    requires family { (address.width ≡ 32) ⊎ (address.width ≡ 128) }
    requires fits { address.bits < 2 ^ address.width }
    requires length { length ≤ address.width }
    requires one_tree { IsArt key_text reader.old.arena root }
    requires keys { HasKeys key_text IsNetwork reader.old.arena }
    requires budget { most_visits length ≤ reader.old.budget }
    ensures longest { MatchOption result (NoneCovers (entries_of key_text reader.old.arena) (record { address = address; length = length }))
        (λ route. IsLongestOver (entries_of key_text reader.old.arena) (record { address = address; length = length }) (route_now route)) }
    ensures visits { reader.old.budget ≤ reader.new.budget + most_visits length }
    ensures same_arena { reader.new.arena ≡ reader.old.arena }
{
    laws::entries_are_what_leaves_hold::<RouteKey, V, PREFIX_LEN>();
    laws::entries_are_one_list::<RouteKey, V, PREFIX_LEN>();
    let root = root?;
    let text = text_of(address, length);
    let key = &text[..usize::from(length / 7) + 2];
    longest_below(reader, root, address, length, key, 0)
}

/// The shortest route that contains an address, in the tree at a root: as [`longest_in`].
pub(crate) fn shortest_in<'a, V>(
    reader: &mut ArenaReader<'a, RouteKey, V, PREFIX_LEN>,
    root: Option<RouteNode<V>>,
    address: Address,
) -> Option<(Network, &'a V)>
    requires family { (address.width ≡ 32) ⊎ (address.width ≡ 128) }
    requires fits { address.bits < 2 ^ address.width }
    requires one_tree { IsArt key_text reader.old.arena root }
    requires keys { HasKeys key_text IsNetwork reader.old.arena }
    requires budget { most_visits address.width ≤ reader.old.budget }
    ensures shortest { MatchOption result (NoneContains (entries_of key_text reader.old.arena) address)
        (λ route. IsShortest (entries_of key_text reader.old.arena) address (route_now route)) }
    ensures visits { reader.old.budget ≤ reader.new.budget + most_visits address.width }
    ensures same_arena { reader.new.arena ≡ reader.old.arena }
{
    laws::entries_are_what_leaves_hold::<RouteKey, V, PREFIX_LEN>();
    laws::entries_are_one_list::<RouteKey, V, PREFIX_LEN>();
    let root = root?;
    let length = address.width;
    let text = text_of(address, length);
    let key = &text[..usize::from(length / 7) + 2];
    shortest_below(reader, root, address, length, key, 0)
}
