//! A law of the branches of a node, proved from two laws of trees.
ghost use Rattle.std.specs.Prelude.{◌≡◌, ◌<◌, ◌++◌, [], ◌∷◌, ℕ, List, All};
ghost use Rattle.std.specs.declared.cmp.Ordering.TheVariants.{Less};
ghost use Rattle.art_bytes.specs.Text.{text_order};
ghost use Rattle.art_arena.specs.Trees.{Tree, texts, IsSound};

use super::laws::{texts_begin_with_their_path, texts_part_at_a_byte};

/// Each key below a branch comes before each key below a later branch of the same node. Does no work.
fn branches_are_in_order<H>()
    ensures { (path : List ℕ) (byte later : ℕ) (tree other : Tree H) →
        IsSound (path ++ byte ∷ []) tree → IsSound (path ++ later ∷ []) other → byte < later →
        All (λ above. All (λ text. text_order text above ≡ Less) (texts tree)) (texts other) }
{
    texts_begin_with_their_path::<H>();
    texts_part_at_a_byte::<H>();
}
