//! How keys compare, in the terms of their values: by size, by the first octet, element or part
//! that differs.
ghost use Rattle.std.specs.Prelude.{◌≡◌, ◌<◌, ◌<ℤ◌, ◌∷◌, [], ℕ, ℤ, List, Vec};
ghost use Rattle.std.specs.Int.NonZero.{non_zero_u64_get, non_zero_i8_get};
ghost use Rattle.std.specs.Net.Addr.{ipv4_octets, ipv6_octets};
ghost use Rattle.std.specs.Ordering.{int_cmp, nat_cmp};
ghost use Rattle.std.specs.Vec.{vec_items};
ghost use Rattle.std.specs.declared.alloc.Global.{Global};
ghost use Rattle.std.specs.declared.cmp.Ordering.TheVariants.{Less};
ghost use Rattle.std.specs.declared.net.Ipv4Addr.{Ipv4Addr};
ghost use Rattle.std.specs.declared.net.Ipv6Addr.{Ipv6Addr};
ghost use Rattle.std.specs.declared.num.NonZeroU64.{NonZeroU64};
ghost use Rattle.std.specs.declared.num.NonZeroI8.{NonZeroI8};
ghost use Rattle.art_mapped.specs.Mapped.{HoldsValue};
ghost use Rattle.art_mapped.specs.Orders.{BySize, BySignedSize, ByFirstItem, ByFirstItemOrEnd, ByFirstPart};

use super::*;
use art_mapped::orders;

// Unsigned and signed numbers compare by size.
fn by_size(a: &Mapped<ToUBE, u16>, b: &Mapped<ToUBE, u16>) -> Ordering
    ensures { (x y : ℕ) → HoldsValue a.now x → HoldsValue b.now y → BySize result x y }
{
    orders::numbers_compare_by_size();
    a.cmp(b)
}

fn by_signed_size(a: &Mapped<ToIBE, i64>, b: &Mapped<ToIBE, i64>) -> Ordering
    ensures { (x y : ℤ) → HoldsValue a.now x → HoldsValue b.now y → BySignedSize result x y }
{
    orders::numbers_compare_by_size();
    a.cmp(b)
}

// So do the numbers of `NonZero` types.
fn by_count(a: &Mapped<ToUBE, NonZeroU64>, b: &Mapped<ToUBE, NonZeroU64>) -> Ordering
    ensures { (x y : NonZeroU64) → HoldsValue a.now x → HoldsValue b.now y →
        BySize result (non_zero_u64_get x) (non_zero_u64_get y) }
{
    orders::numbers_compare_by_size();
    a.cmp(b)
}

fn by_signed_count(a: &Mapped<ToIBE, NonZeroI8>, b: &Mapped<ToIBE, NonZeroI8>) -> Ordering
    ensures { (x y : NonZeroI8) → HoldsValue a.now x → HoldsValue b.now y →
        BySignedSize result (non_zero_i8_get x) (non_zero_i8_get y) }
{
    orders::numbers_compare_by_size();
    a.cmp(b)
}

// Addresses compare by the first octet that differs.
fn by_ipv4_octet(a: &Mapped<ToOctets, Ipv4Addr>, b: &Mapped<ToOctets, Ipv4Addr>) -> Ordering
    ensures { (x y : Ipv4Addr) → HoldsValue a.now x → HoldsValue b.now y →
        ByFirstItem (λ p q. p < q) result (ipv4_octets x) (ipv4_octets y) }
{
    orders::addresses_compare_by_octets();
    a.cmp(b)
}

fn by_ipv6_octet(a: &Mapped<ToOctets, Ipv6Addr>, b: &Mapped<ToOctets, Ipv6Addr>) -> Ordering
    ensures { (x y : Ipv6Addr) → HoldsValue a.now x → HoldsValue b.now y →
        ByFirstItem (λ p q. p < q) result (ipv6_octets x) (ipv6_octets y) }
{
    orders::addresses_compare_by_octets();
    a.cmp(b)
}

// Arrays compare by the first element that differs.
fn by_first_element<F: IntegerForm, E: Element<F>, const N: usize>(
    a: &Mapped<ToBigEndian<F>, [E; N]>,
    b: &Mapped<ToBigEndian<F>, [E; N]>,
) -> Ordering
    ensures { (xs ys : List E) → HoldsValue a.now xs → HoldsValue b.now ys →
        ByFirstItem (λ x y. E.cmp x y ≡ Less) result xs ys }
{
    orders::sequences_compare_by_elements::<F, E, N>();
    a.cmp(b)
}

fn by_first_port(a: &Mapped<ToUBE, [u16; 3]>, b: &Mapped<ToUBE, [u16; 3]>) -> Ordering
    ensures { (xs ys : List ℕ) → HoldsValue a.now xs → HoldsValue b.now ys →
        ByFirstItem (λ x y. x < y) result xs ys }
{
    orders::lists_of_numbers_compare_by_numbers();
    a.cmp(b)
}

// Vectors too, and a vector that is a proper prefix of another is less.
fn by_first_element_or_end<F: IntegerForm, E: Element<F>>(
    a: &Mapped<ToBigEndian<F>, Vec<E>>,
    b: &Mapped<ToBigEndian<F>, Vec<E>>,
) -> Ordering
    ensures { (xs ys : Vec E Global) → HoldsValue a.now xs → HoldsValue b.now ys →
        ByFirstItemOrEnd (λ x y. E.cmp x y ≡ Less) result (vec_items xs) (vec_items ys) }
{
    orders::sequences_compare_by_elements::<F, E, 0>();
    a.cmp(b)
}

fn by_first_step(a: &Mapped<ToIBE, Vec<i16>>, b: &Mapped<ToIBE, Vec<i16>>) -> Ordering
    ensures { (xs ys : Vec ℤ Global) → HoldsValue a.now xs → HoldsValue b.now ys →
        ByFirstItemOrEnd (λ x y. x <ℤ y) result (vec_items xs) (vec_items ys) }
{
    orders::lists_of_numbers_compare_by_numbers();
    a.cmp(b)
}

type Route = ConcatTuple<(ToOctets, ToIBE)>;

// Tuples compare by the first part that differs.
fn by_address_then_cost(
    a: &Mapped<Route, (Ipv4Addr, i32)>,
    b: &Mapped<Route, (Ipv4Addr, i32)>,
) -> Ordering
    ensures { (x y : Ipv4Addr × ℤ) → HoldsValue a.now x → HoldsValue b.now y → ByFirstPart result
        (⟦<Ipv4Addr as Ord>⟧.cmp x.0 y.0 ∷ int_cmp x.1 y.1 ∷ []) }
{
    orders::tuples_compare_by_parts::<(Ipv4Addr, i32), _>();
    a.cmp(b)
}

type Priced = ConcatTuple<(ToOctets, ToUBE, ToIBE)>;

fn by_address_then_port_then_cost(
    a: &Mapped<Priced, (Ipv4Addr, u16, i32)>,
    b: &Mapped<Priced, (Ipv4Addr, u16, i32)>,
) -> Ordering
    ensures { (x y : Ipv4Addr × ℕ × ℤ) → HoldsValue a.now x → HoldsValue b.now y →
        ByFirstPart result
        (⟦<Ipv4Addr as Ord>⟧.cmp x.0 y.0 ∷ nat_cmp x.1 y.1 ∷ int_cmp x.2 y.2 ∷ []) }
{
    orders::tuples_compare_by_parts::<(Ipv4Addr, u16, i32), _>();
    a.cmp(b)
}

// Tuples of four to six parts too, under any ordered mapping.
fn by_first_of_four<M, A: Ord, B: Ord, C: Ord, D: Ord>(
    a: &Mapped<M, (A, B, C, D)>,
    b: &Mapped<M, (A, B, C, D)>,
) -> Ordering
where
    M: OrderedMapping<(A, B, C, D)>,
    ensures { (x y : A × B × C × D) → HoldsValue a.now x → HoldsValue b.now y →
        ByFirstPart result (A.cmp x.0 y.0 ∷ B.cmp x.1 y.1 ∷ C.cmp x.2 y.2 ∷ D.cmp x.3 y.3 ∷ []) }
{
    orders::tuples_compare_by_parts::<(A, B, C, D), _>();
    a.cmp(b)
}

fn by_first_of_five<M, A: Ord, B: Ord, C: Ord, D: Ord, E: Ord>(
    a: &Mapped<M, (A, B, C, D, E)>,
    b: &Mapped<M, (A, B, C, D, E)>,
) -> Ordering
where
    M: OrderedMapping<(A, B, C, D, E)>,
    ensures { (x y : A × B × C × D × E) → HoldsValue a.now x → HoldsValue b.now y →
        ByFirstPart result (A.cmp x.0 y.0 ∷ B.cmp x.1 y.1 ∷ C.cmp x.2 y.2 ∷ D.cmp x.3 y.3
        ∷ E.cmp x.4 y.4 ∷ []) }
{
    orders::tuples_compare_by_parts::<(A, B, C, D, E), _>();
    a.cmp(b)
}

fn by_first_of_six<M, A: Ord, B: Ord, C: Ord, D: Ord, E: Ord, F: Ord>(
    a: &Mapped<M, (A, B, C, D, E, F)>,
    b: &Mapped<M, (A, B, C, D, E, F)>,
) -> Ordering
where
    M: OrderedMapping<(A, B, C, D, E, F)>,
    ensures { (x y : A × B × C × D × E × F) → HoldsValue a.now x → HoldsValue b.now y →
        ByFirstPart result (A.cmp x.0 y.0 ∷ B.cmp x.1 y.1 ∷ C.cmp x.2 y.2 ∷ D.cmp x.3 y.3
        ∷ E.cmp x.4 y.4 ∷ F.cmp x.5 y.5 ∷ []) }
{
    orders::tuples_compare_by_parts::<(A, B, C, D, E, F), _>();
    a.cmp(b)
}
