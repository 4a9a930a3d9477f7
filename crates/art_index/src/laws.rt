//! Laws of an index. The functions do no work: the contract of each is a law.
ghost use Rattle.std.specs.Prelude.{◌≡◌};
ghost use Rattle.art_nodes.specs.Pointers.{slab_key};
ghost use Rattle.art_arena.specs.Arena.{LeafPtr, NodeArena};
ghost use Rattle.art_arena.specs.Links.{HoldsLeaf};
ghost use Rattle.art_steps.specs.Art.{IsArt};
ghost use Rattle.art_steps.specs.Dictionary.{IsEntry};
ghost use Rattle.art_steps.specs.Insertion.{ClashesIn};
ghost use Rattle.art_index.specs.Places.{IsPlaced};

use art_bytes::AsBytes;
use art_keys::RadixKey;

/// Each leaf that a tree holds is placed: it holds one entry of the list of the tree's entries.
pub fn each_leaf_is_placed<A: AsBytes, V, const PREFIX_LEN: usize>()
    ensures { (arena : NodeArena A V PREFIX_LEN) (root : _) (leaf : LeafPtr A V PREFIX_LEN) →
        IsArt A.text arena root → HoldsLeaf arena (slab_key leaf) → IsPlaced A.text arena leaf }
{}

/// Where the anchors of an index are encodings of keys, the encoding of a key is no proper prefix of
/// one of them, and none of them of it: `add_page` does not refuse it for that.
pub fn encodings_never_clash<K: RadixKey, A: AsBytes, V, const PREFIX_LEN: usize>()
    ensures { (arena : NodeArena A V PREFIX_LEN) (key : K) → K.is_key key →
        ((entry : A × V) → IsEntry A.text arena entry →
        (other : K) × K.is_key other × (A.text entry.0 ≡ K.encoded other)) →
        ¬ ClashesIn A.text arena (K.encoded key) }
{}
