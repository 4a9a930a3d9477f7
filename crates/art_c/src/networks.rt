//! The exports that find networks: those that no route overlaps, and those of which two tables differ.
ghost use Rattle.std.specs.Prelude.{◌≡◌, ◌≢◌, ◌↔◌, ◌⊎◌, ◌/◌, ◌&&◌, ℕ, false, List, Option, None, length as list_length, take};
ghost use Rattle.art_routes.specs.Networks.{Block};
ghost use Rattle.art_c.specs.Handles.{held_entries};
ghost use Rattle.art_c.specs.NetworkStatuses.{IsDifferenceWritten, IsTooLong, change_of};
ghost use Rattle.art_c.specs.Statuses.{ART_BAD_NETWORK, ART_NONE, ART_NO_MAP, ART_SMALL_BUFFER, ART_SOME};
ghost use Rattle.art_c_maps.specs.Entries.{begun_with};
ghost use Rattle.art_c_routes.specs.Addresses.{is_network, network_in};
ghost use Rattle.art_c_routes.specs.Available.{AreAvailable, is_place, joined_addresses};
ghost use Rattle.art_c_routes.specs.Found.{routes_from};
ghost use Rattle.art_c_maps.specs.Many.{found_or};

use crate::routes_view::RoutesView;
use crate::statuses::{BAD_NETWORK, INSERT, NO_MAP, NONE, REMOVE, REPLACE, SMALL_BUFFER, SOME};
use art_c_routes::Difference;

/// Writes out the addresses of the networks of `part_length` bits inside a network that no route overlaps, in order, one
/// behind another, as many as fit, and how many: of those that begin behind the one with the address `after`, or of all
/// where that has no bytes.
#[unsafe(no_mangle)]
pub extern "C" fn art_routes_available_many(
    table: &mut RoutesView,
    address: &[u8],
    length: u8,
    part_length: u8,
    after: &[u8],
    addresses: &mut [u8],
    count: &mut usize,
) -> u32
    ensures no_map { (result ≡ ART_NO_MAP) ↔ (table.old.seen ≡ None) }
    ensures bad_network { result ≢ ART_NO_MAP → (result ≡ ART_BAD_NETWORK)
        ↔ ((is_network address.now length && is_place (network_in address.now length) part_length after.now) ≡ false) }
    ensures status { (result ≢ ART_NO_MAP) × (result ≢ ART_BAD_NETWORK) → result ≡ ART_NONE }
    ensures written { result ≡ ART_NONE → (free : List Block)
        × AreAvailable (held_entries table.old.seen) (network_in address.now length) part_length after.now free
        × (count.new ≡ list_length (take (list_length addresses.old / list_length address.now) free))
        × (addresses.new ≡ begun_with
        (joined_addresses (take (list_length addresses.old / list_length address.now) free)) addresses.old) }
    ensures refused { (result ≡ ART_NO_MAP) ⊎ (result ≡ ART_BAD_NETWORK) →
        (addresses.new ≡ addresses.old) × (count.new ≡ count.old) }
    ensures same { table.new ≡ table.old }
{
    let Some(held) = table.lent() else {
        return NO_MAP;
    };
    let written = held.available_many(address, length, part_length, after, addresses);
    match written {
        Some(done) => {
            *count = done;
            NONE
        }
        None => BAD_NETWORK,
    }
}

// Writes out what two tables have of a network, and by which change the first becomes as the second.
fn write_change(found: Difference, change: &mut u8, before: &mut u64, after: &mut u64)
    ensures change { change.new ≡ change_of found.before found.after }
    ensures before { before.new ≡ found_or found.before before.old }
    ensures after { after.new ≡ found_or found.after after.old }
{
    match found.before {
        Some(value) => {
            *before = value;
            *change = if found.after.is_some() {
                REPLACE
            } else {
                REMOVE
            };
        }
        None => *change = INSERT,
    }
    if let Some(value) = found.after {
        *after = value;
    }
}

/// Finds the first network at one or after it, in the order of networks, of which two tables differ, and writes out the
/// change by which the first becomes as the second, and the value of each where it has one. Where its address does not
/// fit, only its width is written: the buffer for it is unchanged, and so is all else.
#[unsafe(no_mangle)]
pub extern "C" fn art_routes_next_difference(
    table: &mut RoutesView,
    new_table: &mut RoutesView,
    from: &[u8],
    from_length: u8,
    inclusive: bool,
    address_out: &mut [u8],
    width: &mut usize,
    length: &mut u8,
    change: &mut u8,
    before: &mut u64,
    after: &mut u64,
) -> u32
    ensures no_map { (result ≡ ART_NO_MAP) ↔ ((table.old.seen ≡ None) ⊎ (new_table.old.seen ≡ None)) }
    ensures bad_network { result ≢ ART_NO_MAP →
        (result ≡ ART_BAD_NETWORK) ↔ (is_network from.now from_length ≡ false) }
    ensures status { (result ≢ ART_NO_MAP) × (result ≢ ART_BAD_NETWORK) →
        (result ≡ ART_NONE) ⊎ (result ≡ ART_SOME) ⊎ (result ≡ ART_SMALL_BUFFER) }
    ensures none { result ≡ ART_NONE → routes_from inclusive (network_in from.now from_length) (held_entries table.old.seen)
        ≡ routes_from inclusive (network_in from.now from_length) (held_entries new_table.old.seen) }
    ensures found { result ≡ ART_SOME → IsDifferenceWritten
        (routes_from inclusive (network_in from.now from_length) (held_entries table.old.seen))
        (routes_from inclusive (network_in from.now from_length) (held_entries new_table.old.seen))
        address_out.old before.old after.old address_out.new width.new length.new change.new before.new after.new }
    ensures too_long { result ≡ ART_SMALL_BUFFER → IsTooLong
        (routes_from inclusive (network_in from.now from_length) (held_entries table.old.seen))
        (routes_from inclusive (network_in from.now from_length) (held_entries new_table.old.seen))
        address_out.old address_out.new width.new }
    ensures unchanged { result ≢ ART_SOME → (length.new ≡ length.old) × (change.new ≡ change.old)
        × (before.new ≡ before.old) × (after.new ≡ after.old) }
    ensures same_address { (result ≢ ART_SOME) × (result ≢ ART_SMALL_BUFFER) →
        (address_out.new ≡ address_out.old) × (width.new ≡ width.old) }
    ensures same { (table.new ≡ table.old) × (new_table.new ≡ new_table.old) }
{
    let Some(held) = table.lent() else {
        return NO_MAP;
    };
    let Some(new_held) = new_table.lent() else {
        return NO_MAP;
    };
    let room = address_out.len();
    let found = held.next_difference(new_held, from, from_length, inclusive, address_out);
    let difference = match found {
        Ok(Some(difference)) => difference,
        Ok(None) => return NONE,
        Err(_) => return BAD_NETWORK,
    };
    *width = difference.width;
    if difference.width > room {
        return SMALL_BUFFER;
    }
    *length = difference.length;
    write_change(difference, change, before, after);
    SOME
}
