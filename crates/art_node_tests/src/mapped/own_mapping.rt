//! How a crate makes keys of a type of its own: a struct of two numbers.
ghost use Rattle.std.specs.Prelude.{◌≡◌, ◌++◌, ℕ};
ghost use Rattle.std.proofs.Common.{ap, rules};
ghost use Rattle.art_mapped.specs.Mapped.{mapped_text, HoldsValue};
ghost use Rattle.art_mapped.specs.NumberLaws.{unsigned_keep, keep_of};
ghost use Rattle.art_mapped.specs.Numbers.{digits, IsUnsigned};
ghost use Rattle.art_mapped.specs.SequenceLaws.{pair_keep};
ghost use Rattle.art_node_tests.specs.declared.mapped.own_mapping.Seat.{Seat};

use super::*;

/// A seat of a hall. Seats sort by their row, and in a row by their place.
#[derive(Clone, Copy, PartialEq, Eq, PartialOrd, Ord)]
struct Seat {
    row: u16,
    place: u16,
}

/// The bytes of a seat are those of its row, and then those of its place.
impl DomainTexts<Unsigned> for Seat {
    type ToBytes = ToUBE;

    ghost is_in_range = { λ seat. IsUnsigned 2 seat.row × IsUnsigned 2 seat.place };

    ghost text_of = { λ seat. digits 2 seat.row ++ digits 2 seat.place };
}

impl Element<Unsigned> for Seat {
    type Bytes = [u8; 4];

    ghost keeps = { keep_of
        (pair_keep (unsigned_keep 2 (Prim.search rules)) (unsigned_keep 2 (Prim.search rules)))
        (λ seat. (seat.row, seat.place))
        (λ x y same. let seat : ℕ × ℕ → Seat = λ pair. record { row = pair.0; place = pair.1 } in
        ap seat same) };

    fn encode(self) -> [u8; 4] {
        let [row, row_low] = self.row.to_be_bytes();
        let [place, place_low] = self.place.to_be_bytes();
        [row, row_low, place, place_low]
    }

    fn decode(bytes: [u8; 4]) -> Option<Seat> {
        let [row, row_low, place, place_low] = bytes;
        Some(Seat {
            row: u16::from_be_bytes([row, row_low]),
            place: u16::from_be_bytes([place, place_low]),
        })
    }
}

impl Domain<Unsigned> for Seat {
    type Mapping = Single<Unsigned>;

    ghost same_keys = { λ _ _. (λ holds. holds, λ holds. holds) };

    ghost same_texts = { λ _ _. (λ is. is, λ is. is) };
}

type SeatKey = Mapped<ToUBE, Seat>;

/// The key of a seat is four bytes, and takes no memory.
fn key_of_seat(seat: Seat) -> SeatKey
    ensures seat { HoldsValue result seat }
    ensures text { mapped_text result ≡ digits 2 seat.row ++ digits 2 seat.place }
{
    SeatKey::of(seat)
}

/// The seat is read back from its key.
fn seat_of(key: &SeatKey) -> Seat
    ensures { (seat : Seat) → HoldsValue key.now seat → result ≡ seat }
{
    key.value()
}
