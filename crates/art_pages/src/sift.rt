//! Entries tested in turn, of which some stay.
ghost use Rattle.std.specs.Prelude.{◌≡◌, vec_capacity};
ghost use Rattle.std.specs.Map.Calls.{CallableOnEachPair};
ghost use Rattle.art_pages.specs.Retaining.{RetainsTo};

use crate::keeps::Keeps;

/// Tests each entry in turn, and drops those that the test does not keep. The others close up.
pub(crate) fn retain_pairs<K: Drop, V: Drop, F: Keeps<K, V>>(pairs: &mut Vec<(K, V)>, test: &mut F)
    requires { CallableOnEachPair F.step F.accepts test.old pairs.old.items }
    ensures retained { RetainsTo F.step test.old pairs.old.items pairs.new.items test.new }
    ensures capacity { vec_capacity pairs.new ≡ vec_capacity pairs.old }
{
    let mut kept = 0;
    let mut place = 0;
    'pairs: while place < pairs.len() {
        let pair = &mut pairs[place];
        if test.keeps(&pair.0, &mut pair.1) {
            pairs.swap(kept, place);
            kept += 1;
        }
        place += 1;
    }
    pairs.truncate(kept);
}
