//! The root of a tree.
ghost use Rattle.std.specs.Option.{IfSome};
ghost use Rattle.art_search.specs.Search.{HasTree};

use super::*;

type Keys<const PREFIX_LEN: usize> = ArtTree<String, usize, PREFIX_LEN>;

type Pointer<const PREFIX_LEN: usize> = OpaqueNodePtr<String, usize, PREFIX_LEN>;

// The root of a tree that has one, at which a whole tree stands.
fn root_of<const PREFIX_LEN: usize>(tree: &Keys<PREFIX_LEN>) -> Option<Pointer<PREFIX_LEN>>
    ensures { IfSome result (λ root. HasTree ⟦<String as AsBytes>⟧.text tree.now.arena root) }
{
    tree.root()
}
