//! Laws of encodings. The functions do no work: the contract of each is a law.
ghost use Rattle.std.specs.Prelude.{◌≡◌, ℕ, ◌<◌, ◌^◌, ◌&&◌, List, [], ◌++◌, length, take};
ghost use Rattle.std.specs.Ordering.{is_gt, is_lt, ordering_then};
ghost use Rattle.std.specs.declared.cmp.Ordering.TheVariants.{Less, Equal, Greater};
ghost use Rattle.art_bytes.specs.Text.{text_order};
ghost use Rattle.art_keys.specs.Heads.{head_at};

use crate::key::RadixKey;
use crate::prefix::PrefixQuery;
use crate::query::RadixQuery;

/// Keys compare as their encodings do, and where one encoding begins with another the keys tie and
/// nothing follows.
pub fn encodings_sort<K: RadixKey>()
    ensures order { (x y : K) → K.is_key x → K.is_key y →
        K.cmp x y ≡ text_order (K.encoded x) (K.encoded y) }
    ensures no_prefix { (x y : K) (rest : List ℕ) → K.is_key x → K.is_key y →
        K.encoded y ≡ K.encoded x ++ rest → (K.cmp x y ≡ Equal) × (rest ≡ []) }
{}

/// Where two encodings agree in their first bytes, the key with the lesser head behind these is less.
pub fn heads_sort<K: RadixKey>()
    ensures { (x y : K) (skip : ℕ) → K.is_key x → K.is_key y →
        take skip (K.encoded x) ≡ take skip (K.encoded y) →
        head_at skip (K.encoded x) < head_at skip (K.encoded y) → K.cmp x y ≡ Less }
{}

/// The same of a query and a key.
pub fn heads_of_queries_sort<K: RadixKey, Q: RadixQuery<K>>()
    ensures less { (q : Q) (x : K) (skip : ℕ) → Q.is_query q → K.is_key x →
        length (K.encoded x) < 2 ^ 32 → take skip (Q.encoded q) ≡ take skip (K.encoded x) →
        head_at skip (Q.encoded q) < head_at skip (K.encoded x) → Q.compare q x ≡ Less }
    ensures greater { (q : Q) (x : K) (skip : ℕ) → Q.is_query q → K.is_key x →
        length (K.encoded x) < 2 ^ 32 → take skip (Q.encoded q) ≡ take skip (K.encoded x) →
        head_at skip (K.encoded x) < head_at skip (Q.encoded q) → Q.compare q x ≡ Greater }
{}

/// A key is above the lower bound of a prefix and below the upper one exactly where it begins with the
/// prefix.
pub fn prefixes_are_between<K: RadixKey, P: PrefixQuery<K>>()
    ensures { (q : P) (x : K) → is_lt (ordering_then (P.compare_start q x) Less)
        && is_gt (ordering_then (P.compare_start q x) Greater) ≡ P.begins q x }
{}
