//! The order of each domain, in its own terms. The functions do no work: the contract of each is a
//! law.
//!
//! Under an ordered mapping a [`Mapped`](crate::Mapped) compares as its value does. These laws
//! state how values compare: numbers by size, addresses by the first octet that differs, arrays,
//! vectors and tuples by the first part that differs, and a vector that is a proper prefix of
//! another is less.
ghost use Rattle.std.specs.Prelude.{◌≡◌, ◌<◌, ◌<ℤ◌, ℕ, ℤ, List, [], ◌∷◌, length, Vec};
ghost use Rattle.std.specs.Ordering.{MatchOrdering, nat_cmp, int_cmp};
ghost use Rattle.std.specs.Cmp.Lexicographic.{slice_cmp};
ghost use Rattle.std.specs.Net.Addr.{ipv4_octets, ipv6_octets};
ghost use Rattle.std.specs.Vec.{vec_items};
ghost use Rattle.std.specs.declared.alloc.Global.{Global};
ghost use Rattle.std.specs.declared.cmp.Ordering.TheVariants.{Less};
ghost use Rattle.std.specs.declared.net.Ipv4Addr.{Ipv4Addr};
ghost use Rattle.std.specs.declared.net.Ipv6Addr.{Ipv6Addr};
ghost use Rattle.art_mapped.specs.Addresses.{IsIpv4, IsIpv6};
ghost use Rattle.art_mapped.specs.Orders.{BySize, BySignedSize, ByFirstItem, ByFirstItemOrEnd, ByFirstPart};
ghost use Rattle.art_mapped.specs.Sequences.{IsArray};

use crate::element::Element;
use crate::tuple::OrderedTuple;
use std::net::{Ipv4Addr, Ipv6Addr};

/// Numbers compare by size.
pub fn numbers_compare_by_size()
    ensures unsigned { (x y : ℕ) → BySize (nat_cmp x y) x y }
    ensures signed { (x y : ℤ) → BySignedSize (int_cmp x y) x y }
{}

/// Lists of numbers compare by the first number that differs, and a proper prefix is less. So do
/// arrays and vectors of numbers.
pub fn lists_of_numbers_compare_by_numbers()
    ensures unsigned { (xs ys : List ℕ) →
        ByFirstItemOrEnd (λ x y. x < y) (slice_cmp nat_cmp xs ys) xs ys }
    ensures unsigned_of_one_length { (xs ys : List ℕ) → length xs ≡ length ys →
        ByFirstItem (λ x y. x < y) (slice_cmp nat_cmp xs ys) xs ys }
    ensures signed { (xs ys : List ℤ) →
        ByFirstItemOrEnd (λ x y. x <ℤ y) (slice_cmp int_cmp xs ys) xs ys }
    ensures signed_of_one_length { (xs ys : List ℤ) → length xs ≡ length ys →
        ByFirstItem (λ x y. x <ℤ y) (slice_cmp int_cmp xs ys) xs ys }
{}

/// Addresses compare by the first octet that differs.
pub fn addresses_compare_by_octets()
    ensures ipv4 { (x y : Ipv4Addr) → IsIpv4 x → IsIpv4 y →
        ByFirstItem (λ a b. a < b) (⟦<Ipv4Addr as Ord>⟧.cmp x y) (ipv4_octets x) (ipv4_octets y) }
    ensures ipv6 { (x y : Ipv6Addr) → IsIpv6 x → IsIpv6 y →
        ByFirstItem (λ a b. a < b) (⟦<Ipv6Addr as Ord>⟧.cmp x y) (ipv6_octets x) (ipv6_octets y) }
{}

/// Integers and addresses that compare as equal are equal, and of two others one is less. Arrays
/// and vectors of them compare by the first element that differs, and a vector that is a proper
/// prefix of another is less.
pub fn sequences_compare_by_elements<F, E: Element<F>, const N: usize>()
    ensures element { (x y : E) →
        MatchOrdering (E.cmp x y) (E.cmp x y ≡ Less) (x ≡ y) (E.cmp y x ≡ Less) }
    ensures array { (xs ys : List E) → IsArray N E.is_in_range xs → IsArray N E.is_in_range ys →
        ByFirstItem (λ x y. E.cmp x y ≡ Less) (⟦<[E; N] as Ord>⟧.cmp xs ys) xs ys }
    ensures vector { (xs ys : Vec E Global) → ByFirstItemOrEnd (λ x y. E.cmp x y ≡ Less)
        (⟦<Vec<E> as Ord>⟧.cmp xs ys) (vec_items xs) (vec_items ys) }
{}

/// Tuples compare by the first part that differs.
pub fn tuples_compare_by_parts<D: OrderedTuple<P>, P: Ord>()
    ensures { (x y : D) → ByFirstPart (D.cmp x y) (D.comparisons x y) }
{}
