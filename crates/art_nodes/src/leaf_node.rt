//! Leaves: a key, a value and two links.
ghost use Rattle.std.specs.Prelude.{◌≡◌, ◌↔◌, None, IsTrue, IsOk, IfOk};
ghost use Rattle.std.specs.Option.{option_map};
ghost use Rattle.std.specs.Borrow.{sem};
ghost use Rattle.art_bytes.specs.Text.{IsPrefixOf, text_order};
ghost use Rattle.art_nodes.specs.Pointers.{slab_key};
ghost use Rattle.art_nodes.specs.Leaf.{leaf_key, leaf_value, previous_key, next_key, with_links, LendsValue, LendsEntry};

use crate::inner_nodes::traits::node::Node;
use crate::no_bytes::NoBytes;
use crate::pointers::NodePtr;
use crate::pointers::link::Link;
use crate::sealed::Sealed;
use art_bytes::AsBytes;
use art_header::NodeType;
use std::alloc::AllocError;
use std::cmp::Ordering;

/// A leaf: a key, a value, and links to the leaves before and after it in a list. A link is a slab
/// key.
///
/// (from tests/art_node_tests/nodes/leaf_node.rt.txt)
/// ```rust
/// type Texts = LeafNode<String, String, 16>;
/// // ..
/// let key = String::from_str(rt.alloc(), "ab")?;
/// let value = String::from_str(rt.alloc(), "cd")?;
/// let mut leaf = Texts::with_no_siblings(key, value);
/// let previous = Some(NodePtr::from_key(4));
/// leaf.set_links(previous, None);
/// ```
#[derive(Drop)]
pub struct LeafNode<K, V, const PREFIX_LEN: usize> {
    key: K,
    value: V,
    previous: Link,
    next: Link,
    no_bytes: NoBytes<K, PREFIX_LEN>,
}

impl<K, V, const PREFIX_LEN: usize> Sealed for LeafNode<K, V, PREFIX_LEN> {}

impl<K, V, const PREFIX_LEN: usize> Node<PREFIX_LEN> for LeafNode<K, V, PREFIX_LEN> {
    ghost use Rattle.art_header.specs.declared.node_type.NodeType.TheVariants.{Leaf};

    const TYPE: NodeType = NodeType::Leaf;

    ghost TYPE = { Leaf };

    type Key = K;

    type Value = V;
}

impl<K, V, const PREFIX_LEN: usize> LeafNode<K, V, PREFIX_LEN> {
    /// A leaf with this key and value, which is in no list.
    pub fn with_no_siblings(key: K, value: V) -> Self
        ensures key { leaf_key result ≡ key }
        ensures value { leaf_value result ≡ value }
        ensures previous { previous_key result ≡ None }
        ensures next { next_key result ≡ None }
    {
        LeafNode {
            key,
            value,
            previous: Link::new(None),
            next: Link::new(None),
            no_bytes: NoBytes::new(),
        }
    }

    /// The key.
    pub fn key_ref(&self) -> &K
        ensures { result.now ≡ leaf_key self.now }
    {
        &self.key
    }

    /// The value.
    pub fn value_ref(&self) -> &V
        ensures { result.now ≡ leaf_value self.now }
    {
        &self.value
    }

    /// A mutable reference to the value. Key and links are unchanged.
    pub fn value_mut(&mut self) -> &mut V
        ensures* writes_back { sem 𝓛 (LendsValue K.row V.row PREFIX_LEN.row self.entry result) }
        ensures value { result.now ≡ leaf_value self.old }
    {
        &mut self.value
    }

    /// The key and the value.
    pub fn entry_ref(&self) -> (&K, &V)
        ensures key { result.0.now ≡ leaf_key self.now }
        ensures value { result.1.now ≡ leaf_value self.now }
    {
        (&self.key, &self.value)
    }

    /// Mutable references to the key and the value. Links are unchanged.
    ///
    /// A caller that changes the bytes of a key in a tree or a list must keep the tree well-formed
    /// and the list in order.
    pub fn entry_mut(&mut self) -> (&mut K, &mut V)
        ensures* writes_back { sem 𝓛 (LendsEntry K.row V.row PREFIX_LEN.row self.entry result) }
        ensures key { result.0.now ≡ leaf_key self.old }
        ensures value { result.1.now ≡ leaf_value self.old }
    {
        (&mut self.key, &mut self.value)
    }

    /// The key, and a mutable reference to the value. Key and links are unchanged.
    pub fn key_ref_value_mut(&mut self) -> (&K, &mut V)
        ensures* writes_back { sem 𝓛 (LendsValue K.row V.row PREFIX_LEN.row self.entry result.1) }
        ensures key { result.0.now ≡ leaf_key self.old }
        ensures value { result.1.now ≡ leaf_value self.old }
    {
        (&self.key, &mut self.value)
    }

    /// The key and the value. The links are dropped.
    pub fn into_entry(self) -> (K, V)
        ensures key { result.0 ≡ leaf_key self }
        ensures value { result.1 ≡ leaf_value self }
    {
        let LeafNode {
            key,
            value,
            previous: _,
            next: _,
            no_bytes: _,
        } = self;
        (key, value)
    }

    /// Whether the bytes of the key are exactly these.
    pub fn matches_full_key(&self, possible_key: &[u8]) -> bool
    where
        K: AsBytes,
        ensures { IsTrue result ↔ (K.text (leaf_key self.now) ≡ possible_key.now) }
    {
        self.key.as_bytes() == possible_key
    }

    /// How the bytes of the key compare with these: the first byte that differs decides, and a
    /// proper prefix is less.
    pub fn compare_full_key(&self, possible_key: &[u8]) -> Ordering
    where
        K: AsBytes,
        ensures { result ≡ text_order (K.text (leaf_key self.now)) possible_key.now }
    {
        self.key.as_bytes().cmp(possible_key)
    }

    /// Whether `key` is a prefix of the bytes of the leaf's key.
    pub fn starts_with(&self, key: &[u8]) -> bool
    where
        K: AsBytes,
        ensures { IsTrue result ↔ IsPrefixOf key.now (K.text (leaf_key self.now)) }
    {
        self.key.as_bytes().starts_with(key)
    }

    /// A leaf with clones of the key and of the value, which is in no list. Where clones equal
    /// their originals, it is this leaf without its links.
    ///
    /// It takes the memory of the two clones. Error: [`AllocError`] where one of them fails; this
    /// leaf is unchanged.
    pub fn clone_without_siblings(&self) -> Result<Self, AllocError>
    where
        K: Clone + Drop,
        V: Clone,
        ensures key { IfOk result (λ copy. K.is_clone (leaf_key self.now) (leaf_key copy)) }
        ensures value { IfOk result (λ copy. V.is_clone (leaf_value self.now) (leaf_value copy)) }
        ensures unlinked { IfOk result (λ copy. copy ≡ with_links copy None None) }
        ensures equal { ((key : K) → K.is_clone (leaf_key self.now) key → key ≡ leaf_key self.now) →
            ((value : V) → V.is_clone (leaf_value self.now) value → value ≡ leaf_value self.now) →
            IfOk result (λ copy. copy ≡ with_links self.now None None) }
        ensures takes_no_memory { K.is_infallible (leaf_key self.now) →
            V.is_infallible (leaf_value self.now) → IsOk result }
    {
        let key = self.key.clone()?;
        let value = self.value.clone()?;
        Ok(LeafNode::with_no_siblings(key, value))
    }

    /// The leaf before this one in its list, if there is one.
    pub fn previous(&self) -> Option<NodePtr<PREFIX_LEN, Self>>
        ensures { option_map slab_key result ≡ previous_key self.now }
    {
        Some(NodePtr::from_key(self.previous.key()?))
    }

    /// The leaf after this one in its list, if there is one.
    pub fn next(&self) -> Option<NodePtr<PREFIX_LEN, Self>>
        ensures { option_map slab_key result ≡ next_key self.now }
    {
        Some(NodePtr::from_key(self.next.key()?))
    }

    /// Sets the links of this leaf to these neighbours, `None` at an end of the list. Key and value
    /// are unchanged, and so is every other leaf.
    pub fn set_links(
        &mut self,
        previous: Option<NodePtr<PREFIX_LEN, Self>>,
        next: Option<NodePtr<PREFIX_LEN, Self>>,
    )
        ensures { self.new ≡ with_links self.old (option_map slab_key previous)
            (option_map slab_key next) }
    {
        self.previous = Link::new(key_of(previous));
        self.next = Link::new(key_of(next));
    }
}

// The slab key of a link.
fn key_of<const PREFIX_LEN: usize, N>(leaf: Option<NodePtr<PREFIX_LEN, N>>) -> Option<usize>
    ensures { result ≡ option_map slab_key leaf }
{
    Some(leaf?.key())
}
