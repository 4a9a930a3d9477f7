//! The pointers that inner nodes store, in nine bytes each.
ghost use Rattle.std.specs.Prelude.{◌≡◌, ◌↔◌, IsTrue};

use crate::pointers::OpaqueNodePtr;
use art_header::NodeType;
use std::hash::{Hash, Hasher};
use std::marker::{Model, PhantomData};

/// An [`OpaqueNodePtr`] in nine bytes, as inner nodes store their children. It may lie at any
/// address. Contracts see the pointer that it was made of.
///
/// `==` compares two of them; [`PackedNodePtr::equals`] and [`OpaqueNodePtr::equals`] compare one
/// with a pointer.
///
/// (from tests/art_node_tests/nodes/indirect.rt.txt)
/// ```rust
/// let children = node.initialized_child_pointers();
/// assert!(rt; children.len() == 2);
/// assert!(rt; children[0] == PackedNodePtr::new(leaf(3)));
/// assert!(rt; children[1].to_opaque() == leaf(2));
/// ```
#[derive_where(Clone, Copy)]
pub struct PackedNodePtr<K, V, const PREFIX_LEN: usize> {
    node_type: NodeType,
    // The slab key, lowest byte first.
    key: [u8; 8],
    leaf: PhantomData<(K, V)>,
}

impl<K, V, const PREFIX_LEN: usize> Model for PackedNodePtr<K, V, PREFIX_LEN> {
    ghost use Rattle.std.specs.Prelude.{◌≡◌, ◌<◌, ℕ, length, get_or};
    ghost use Rattle.std.specs.Int.{w64, from_le_bytes, to_le_bytes};
    ghost use Rattle.std.proofs.Common.{ap, refl};
    ghost use Rattle.std.proofs.lemmas.Nat.{le_bytes_8};
    ghost use Rattle.art_nodes.specs.declared.pointers.OpaqueNodePtr.{OpaqueNodePtr};
    ghost use Rattle.art_nodes.specs.Pointers.{opaque_pointer, node_kind, opaque_key};

    ghost Value = { OpaqueNodePtr K V PREFIX_LEN };

    ghost view = { λ p. opaque_pointer p.node_type (from_le_bytes w64 p.key) };

    ghost invariant = { λ p. (length p.key ≡ 8) × ((i : ℕ) → get_or p.key i 0 < 256) };

    ghost inverse = { λ p. record {
      node_type = node_kind p;
      key = to_le_bytes w64 (opaque_key p);
      leaf = record {};
    } };

    ghost inverse_ok = { λ p h.
        ap (λ bytes. record { node_type = p.node_type; key = bytes; leaf = record {} })
        (le_bytes_8 p.key (from_le_bytes w64 p.key) h.0 h.1 refl) };
}

impl<K, V, const PREFIX_LEN: usize> PackedNodePtr<K, V, PREFIX_LEN> {
    /// The pointer in nine bytes.
    #[inline]
    pub fn new(pointer: OpaqueNodePtr<K, V, PREFIX_LEN>) -> Self
        ensures { result ≡ pointer }
    {
        PackedNodePtr {
            node_type: pointer.node_type,
            key: pointer.key.to_le_bytes(),
            leaf: PhantomData,
        }
    }

    /// The pointer that this one was made of.
    #[inline]
    pub fn to_opaque(&self) -> OpaqueNodePtr<K, V, PREFIX_LEN>
        ensures { result ≡ self.now }
    {
        OpaqueNodePtr {
            node_type: self.node_type,
            key: usize::from_le_bytes(self.key),
            leaf: PhantomData,
        }
    }

    /// Whether this one was made of the pointer.
    #[inline]
    pub fn equals(&self, pointer: &OpaqueNodePtr<K, V, PREFIX_LEN>) -> bool
        ensures { IsTrue result ↔ (self.now ≡ pointer.now) }
    {
        self.to_opaque() == *pointer
    }
}

impl<K, V, const PREFIX_LEN: usize> OpaqueNodePtr<K, V, PREFIX_LEN> {
    /// Whether the packed pointer was made of this one.
    #[inline]
    pub fn equals(&self, packed: &PackedNodePtr<K, V, PREFIX_LEN>) -> bool
        ensures { IsTrue result ↔ (self.now ≡ packed.now) }
    {
        packed.equals(self)
    }
}

/// The pointer in nine bytes.
impl<K, V, const PREFIX_LEN: usize> From<OpaqueNodePtr<K, V, PREFIX_LEN>>
    for PackedNodePtr<K, V, PREFIX_LEN> {
    ghost use Rattle.std.specs.Prelude.{◌≡◌};

    ghost from_gives = { λ pointer packed. packed ≡ pointer };

    fn from(value: OpaqueNodePtr<K, V, PREFIX_LEN>) -> Self {
        PackedNodePtr::new(value)
    }
}

/// The pointer that the packed one was made of.
impl<K, V, const PREFIX_LEN: usize> From<PackedNodePtr<K, V, PREFIX_LEN>>
    for OpaqueNodePtr<K, V, PREFIX_LEN> {
    ghost use Rattle.std.specs.Prelude.{◌≡◌};

    ghost from_gives = { λ packed pointer. pointer ≡ packed };

    fn from(value: PackedNodePtr<K, V, PREFIX_LEN>) -> Self {
        value.to_opaque()
    }
}

/// Packed pointers are equal where the pointers that they were made of are.
impl<K, V, const PREFIX_LEN: usize> PartialEq for PackedNodePtr<K, V, PREFIX_LEN> {
    ghost use Rattle.std.proofs.Common.{rules};
    ghost use Rattle.std.specs.Cmp.Rules.{comparing};

    ghost eq = { ⟦<OpaqueNodePtr<K, V, PREFIX_LEN> as PartialEq>⟧.eq };

    ghost laws = { Prim.search (comparing, rules) };

    fn eq(&self, other: &Self) -> bool {
        self.to_opaque() == other.to_opaque()
    }
}

impl<K, V, const PREFIX_LEN: usize> Eq for PackedNodePtr<K, V, PREFIX_LEN> {
    ghost use Rattle.std.proofs.Common.{rules};
    ghost use Rattle.std.specs.Cmp.Rules.{comparing};

    ghost laws = { Prim.search (comparing, rules) };
}

/// A packed pointer is hashed as the pointer that it was made of.
impl<K, V, const PREFIX_LEN: usize> Hash for PackedNodePtr<K, V, PREFIX_LEN> {
    ghost use Rattle.std.proofs.Common.{rules};
    ghost use Rattle.std.specs.Cmp.Rules.{hashing};

    ghost hash_input = { ⟦<OpaqueNodePtr<K, V, PREFIX_LEN> as Hash>⟧.hash_input };

    ghost respects_eq = { Prim.search (hashing, rules) };

    fn hash<H: Hasher>(&self, state: &mut H) {
        self.to_opaque().hash(state);
    }
}

/// A pointer to the `Node4` with the slab key 0. It only fills places that have no pointer.
impl<K, V, const PREFIX_LEN: usize> Default for PackedNodePtr<K, V, PREFIX_LEN> {
    ghost use Rattle.std.specs.Prelude.{◌≡◌};
    ghost use Rattle.art_header.specs.declared.node_type.NodeType.TheVariants.{Node4};
    ghost use Rattle.art_nodes.specs.Pointers.{node_kind, opaque_key};

    ghost is_default = { λ p. (node_kind p ≡ Node4) × (opaque_key p ≡ 0) };

    fn default() -> Self {
        PackedNodePtr::new(OpaqueNodePtr::default())
    }
}
