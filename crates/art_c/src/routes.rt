//! The exports for route tables.
ghost use Rattle.std.specs.Prelude.{◌≡◌, ◌≢◌, ◌*◌, ◌/◌, ◌<◌, ◌==◌, ◌⊎◌, ◌↔◌, ℕ, true, false, [], None, Some, IfNone, IfSome, IsSome, drop, get_or, length as list_length, min, nat_le, take, if◌then◌else◌};
ghost use Rattle.std.specs.Option.{option_map};
ghost use Rattle.art_routes.specs.declared.address.Address.{Address};
ghost use Rattle.art_routes.specs.Aggregates.{IsAggregated, MatchAlike};
ghost use Rattle.art_routes.specs.Networks.{network_around};
ghost use Rattle.art_routes.specs.Removing.{without_covered};
ghost use Rattle.art_routes.specs.Tables.{IsLongest, IsParent, NoneAround, NoneContains, covered, covering, put_route, route_value, without_route};
ghost use Rattle.art_c.specs.Handles.{held_entries};
ghost use Rattle.art_c.specs.RouteStatuses.{IsRouted, IsUnrouted, length_in, route_status, route_value_in, width_or};
ghost use Rattle.art_c.specs.Statuses.{ART_BAD_NETWORK, ART_HAS_MAP, ART_NONE, ART_NO_MAP, ART_NO_MEMORY, ART_SMALL_BUFFER, ART_SOME, IsDone, status_of_found};
ghost use Rattle.art_c_maps.specs.Entries.{begun_with, first_of, last_of, values_of};
ghost use Rattle.art_c_routes.specs.Addresses.{address_in, is_address, is_network, is_width, network_in};
ghost use Rattle.art_c_routes.specs.Found.{IsMatched, address_written, lengths_of, routes_from, routes_to};
ghost use Rattle.art_c_routes.specs.Refusals.{StopsRemoving};
ghost use Rattle.art_c_maps.specs.Many.{found_or};

use crate::numbers::value_status;
use crate::routes_handle::RoutesHandle;
use crate::routes_view::RoutesView;
use crate::statuses::{BAD_NETWORK, HAS_MAP, NO_MAP, NO_MEMORY, NONE, SMALL_BUFFER, SOME};
use art_c_routes::{NumberRoutes, Refusal};
use std::alloc::Global;

// The status of a call that finds a route, of which the address has to fit into so many bytes. How many it
// has, its length and its value are written out.
fn found_status(
    found: Option<(usize, u8, u64)>,
    room: usize,
    width: &mut usize,
    length: &mut u8,
    value: &mut u64,
) -> u32
    ensures none { IfNone found ((result ≡ ART_NONE) × (width.new ≡ width.old) × (length.new ≡ length.old) × (value.new ≡ value.old)) }
    ensures some { IfSome found (λ parts. (width.new ≡ parts.0)
        × (result ≡ (if nat_le parts.0 room then ART_SOME else ART_SMALL_BUFFER))
        × (length.new ≡ (if nat_le parts.0 room then parts.1 else length.old))
        × (value.new ≡ (if nat_le parts.0 room then parts.2 else value.old))) }
{
    let Some((found_width, found_length, found_value)) = found else {
        return NONE;
    };
    *width = found_width;
    if found_width > room {
        return SMALL_BUFFER;
    }
    *length = found_length;
    *value = found_value;
    SOME
}

/// Makes an empty table behind a handle that holds none.
#[unsafe(no_mangle)]
pub extern "C" fn art_routes_new(alloc: Global, table: &mut RoutesHandle) -> u32
    ensures has_map { (result ≡ ART_HAS_MAP) ↔ IsSome table.old.held }
    ensures made { (result ≢ ART_HAS_MAP) × (result ≢ ART_NO_MEMORY) →
        (result ≡ ART_NONE) × (table.new.held ≡ Some []) }
    ensures refused { (result ≡ ART_HAS_MAP) ⊎ (result ≡ ART_NO_MEMORY) →
        table.new.held ≡ table.old.held }
{
    if let Some(_) = table.lent_mut() {
        return HAS_MAP;
    }
    match table.hold(alloc, NumberRoutes::new(alloc)) {
        Ok(_) => NONE,
        Err(_) => NO_MEMORY,
    }
}

/// Frees the table, if there is one. The handle then holds none.
#[unsafe(no_mangle)]
pub extern "C" fn art_routes_free(alloc: Global, table: &mut RoutesHandle)
    ensures { table.new.held ≡ None }
{
    table.free(alloc);
}

/// The number of routes, 0 where there is no table.
#[unsafe(no_mangle)]
pub extern "C" fn art_routes_len(table: &mut RoutesView) -> usize
    ensures len { result ≡ list_length (held_entries table.old.seen) }
    ensures same { table.new ≡ table.old }
{
    let Some(held) = table.lent() else {
        return 0;
    };
    let len = held.len();
    len
}

/// Removes all routes.
#[unsafe(no_mangle)]
pub extern "C" fn art_routes_clear(table: &mut RoutesHandle)
    ensures { table.new.held ≡ option_map (λ _. []) table.old.held }
{
    let Some(held) = table.lent_mut() else {
        return;
    };
    held.clear();
}

/// Reserves memory for more routes.
#[unsafe(no_mangle)]
pub extern "C" fn art_routes_reserve(table: &mut RoutesHandle, additional: usize) -> u32
    ensures no_map { (result ≡ ART_NO_MAP) ↔ (table.old.held ≡ None) }
    ensures status { IsDone result → result ≡ ART_NONE }
    ensures same_routes { table.new.held ≡ table.old.held }
{
    let Some(held) = table.lent_mut() else {
        return NO_MAP;
    };
    let reserved = held.reserve(additional);
    match reserved {
        Ok(_) => NONE,
        Err(_) => NO_MEMORY,
    }
}

/// Puts the routes into memory in their order, with room for just them.
#[unsafe(no_mangle)]
pub extern "C" fn art_routes_compact(table: &mut RoutesHandle) -> u32
    ensures no_map { (result ≡ ART_NO_MAP) ↔ (table.old.held ≡ None) }
    ensures status { IsDone result → result ≡ ART_NONE }
    ensures same_routes { table.new.held ≡ table.old.held }
{
    let Some(held) = table.lent_mut() else {
        return NO_MAP;
    };
    let compacted = held.compact();
    match compacted {
        Ok(_) => NONE,
        Err(_) => NO_MEMORY,
    }
}

/// Sets the value of the route to a network, and writes out the one that it had.
#[unsafe(no_mangle)]
pub extern "C" fn art_routes_insert(
    table: &mut RoutesHandle,
    address: &[u8],
    length: u8,
    value: u64,
    before: &mut u64,
) -> u32
    ensures no_map { (result ≡ ART_NO_MAP) ↔ (table.old.held ≡ None) }
    ensures bad_network { result ≢ ART_NO_MAP →
        (result ≡ ART_BAD_NETWORK) ↔ (is_network address.now length ≡ false) }
    ensures routes { IsRouted result →
        table.new.held ≡ Some (put_route (held_entries table.old.held) (network_in address.now length) value) }
    ensures status { IsRouted result →
        result ≡ status_of_found (route_value (held_entries table.old.held) (network_in address.now length)) }
    ensures before { IsRouted result → before.new
        ≡ found_or (route_value (held_entries table.old.held) (network_in address.now length)) before.old }
    ensures no_route { result ≡ ART_NO_MEMORY →
        route_value (held_entries table.old.held) (network_in address.now length) ≡ None }
    ensures refused { IsUnrouted result →
        (table.new.held ≡ table.old.held) × (before.new ≡ before.old) }
{
    let Some(held) = table.lent_mut() else {
        return NO_MAP;
    };
    let inserted = held.insert(address, length, value);
    match inserted {
        Ok(found) => value_status(found, before),
        Err(Refusal::BadNetwork) => BAD_NETWORK,
        Err(Refusal::OutOfMemory) => NO_MEMORY,
    }
}

/// Finds the value of the route to a network, and adds one with this value where there is none.
#[unsafe(no_mangle)]
pub extern "C" fn art_routes_get_or_insert(
    table: &mut RoutesHandle,
    address: &[u8],
    length: u8,
    value: u64,
    found: &mut u64,
) -> u32
    ensures no_map { (result ≡ ART_NO_MAP) ↔ (table.old.held ≡ None) }
    ensures bad_network { result ≢ ART_NO_MAP →
        (result ≡ ART_BAD_NETWORK) ↔ (is_network address.now length ≡ false) }
    ensures status { IsRouted result →
        result ≡ status_of_found (route_value (held_entries table.old.held) (network_in address.now length)) }
    ensures found { IsRouted result → found.new
        ≡ found_or (route_value (held_entries table.old.held) (network_in address.now length)) found.old }
    ensures added { result ≡ ART_NONE →
        table.new.held ≡ Some (put_route (held_entries table.old.held) (network_in address.now length) value) }
    ensures kept { result ≢ ART_NONE → table.new.held ≡ table.old.held }
    ensures no_route { result ≡ ART_NO_MEMORY →
        route_value (held_entries table.old.held) (network_in address.now length) ≡ None }
    ensures refused { IsUnrouted result → found.new ≡ found.old }
{
    let Some(held) = table.lent_mut() else {
        return NO_MAP;
    };
    let looked_up = held.get_or_insert(address, length, value);
    match looked_up {
        Ok(there) => value_status(there, found),
        Err(Refusal::BadNetwork) => BAD_NETWORK,
        Err(Refusal::OutOfMemory) => NO_MEMORY,
    }
}

/// Finds the value of the route to a network.
#[unsafe(no_mangle)]
pub extern "C" fn art_routes_get(
    table: &mut RoutesView,
    address: &[u8],
    length: u8,
    value: &mut u64,
) -> u32
    ensures no_map { (result ≡ ART_NO_MAP) ↔ (table.old.seen ≡ None) }
    ensures bad_network { result ≢ ART_NO_MAP →
        (result ≡ ART_BAD_NETWORK) ↔ (is_network address.now length ≡ false) }
    ensures status { (result ≢ ART_NO_MAP) × (result ≢ ART_BAD_NETWORK) →
        result ≡ status_of_found (route_value (held_entries table.old.seen) (network_in address.now length)) }
    ensures value { (result ≢ ART_NO_MAP) × (result ≢ ART_BAD_NETWORK) → value.new
        ≡ found_or (route_value (held_entries table.old.seen) (network_in address.now length)) value.old }
    ensures refused { (result ≡ ART_NO_MAP) ⊎ (result ≡ ART_BAD_NETWORK) → value.new ≡ value.old }
    ensures same { table.new ≡ table.old }
{
    let Some(held) = table.lent() else {
        return NO_MAP;
    };
    let found = held.get(address, length);
    match found {
        Ok(found) => value_status(found, value),
        Err(_) => BAD_NETWORK,
    }
}

/// Removes the route to a network, and writes out its value.
#[unsafe(no_mangle)]
pub extern "C" fn art_routes_remove(
    table: &mut RoutesHandle,
    address: &[u8],
    length: u8,
    value: &mut u64,
) -> u32
    ensures no_map { (result ≡ ART_NO_MAP) ↔ (table.old.held ≡ None) }
    ensures bad_network { result ≢ ART_NO_MAP →
        (result ≡ ART_BAD_NETWORK) ↔ (is_network address.now length ≡ false) }
    ensures routes { IsRouted result →
        table.new.held ≡ Some (without_route (held_entries table.old.held) (network_in address.now length)) }
    ensures status { IsRouted result →
        result ≡ status_of_found (route_value (held_entries table.old.held) (network_in address.now length)) }
    ensures value { IsRouted result → value.new
        ≡ found_or (route_value (held_entries table.old.held) (network_in address.now length)) value.old }
    ensures refused_for_memory { result ≡ ART_NO_MEMORY →
        route_value (held_entries table.old.held) (network_in address.now length) ≢ None }
    ensures refused { IsUnrouted result →
        (table.new.held ≡ table.old.held) × (value.new ≡ value.old) }
{
    let Some(held) = table.lent_mut() else {
        return NO_MAP;
    };
    let removed = held.remove(address, length);
    match removed {
        Ok(found) => value_status(found, value),
        Err(Refusal::BadNetwork) => BAD_NETWORK,
        Err(Refusal::OutOfMemory) => NO_MEMORY,
    }
}

/// Removes the routes to a network and to parts of it, and writes out how many there were.
#[unsafe(no_mangle)]
pub extern "C" fn art_routes_remove_covered(
    table: &mut RoutesHandle,
    address: &[u8],
    length: u8,
    count: &mut usize,
) -> u32
    ensures no_map { (result ≡ ART_NO_MAP) ↔ (table.old.held ≡ None) }
    ensures bad_network { result ≢ ART_NO_MAP →
        (result ≡ ART_BAD_NETWORK) ↔ (is_network address.now length ≡ false) }
    ensures status { IsRouted result → result ≡ ART_NONE }
    ensures routes { result ≡ ART_NONE →
        table.new.held ≡ Some (without_covered (network_in address.now length) (held_entries table.old.held)) }
    ensures count { result ≡ ART_NONE →
        count.new ≡ list_length (covered (network_in address.now length) (held_entries table.old.held)) }
    ensures stopped { result ≡ ART_NO_MEMORY → StopsRemoving (network_in address.now length)
        (held_entries table.old.held) (held_entries table.new.held) }
    ensures refused { (result ≡ ART_NO_MAP) ⊎ (result ≡ ART_BAD_NETWORK) → table.new.held ≡ table.old.held }
    ensures same_count { IsUnrouted result → count.new ≡ count.old }
    ensures held { IsSome table.old.held → IsSome table.new.held }
{
    let Some(held) = table.lent_mut() else {
        return NO_MAP;
    };
    let removed = held.remove_covered(address, length);
    match removed {
        Ok(done) => {
            *count = done;
            NONE
        }
        Err(Refusal::BadNetwork) => BAD_NETWORK,
        Err(Refusal::OutOfMemory) => NO_MEMORY,
    }
}

/// Leaves fewer routes by which each address has the value that it had.
#[unsafe(no_mangle)]
pub extern "C" fn art_routes_aggregate(table: &mut RoutesHandle) -> u32
    ensures no_map { (result ≡ ART_NO_MAP) ↔ (table.old.held ≡ None) }
    ensures status { IsDone result → result ≡ ART_NONE }
    ensures same_matches { result ≢ ART_NO_MAP → (address : Address) →
        MatchAlike ◌==◌ (held_entries table.old.held) (held_entries table.new.held) address }
    ensures aggregated { result ≡ ART_NONE → IsAggregated ◌==◌ (held_entries table.new.held) }
    ensures held { IsSome table.old.held → IsSome table.new.held }
    ensures refused { result ≡ ART_NO_MAP → table.new.held ≡ table.old.held }
{
    let Some(held) = table.lent_mut() else {
        return NO_MAP;
    };
    let aggregated = held.aggregate();
    match aggregated {
        Ok(_) => NONE,
        Err(_) => NO_MEMORY,
    }
}

/// Finds the longest route whose network contains an address, and writes out its length and its value.
#[unsafe(no_mangle)]
pub extern "C" fn art_routes_longest_match(
    table: &mut RoutesView,
    address: &[u8],
    length: &mut u8,
    value: &mut u64,
) -> u32
    ensures no_map { (result ≡ ART_NO_MAP) ↔ (table.old.seen ≡ None) }
    ensures bad_address { result ≢ ART_NO_MAP →
        (result ≡ ART_BAD_NETWORK) ↔ (is_address address.now ≡ false) }
    ensures status { (result ≢ ART_NO_MAP) × (result ≢ ART_BAD_NETWORK) →
        (result ≡ ART_SOME) ⊎ (result ≡ ART_NONE) }
    ensures longest { result ≡ ART_SOME → IsLongest (held_entries table.old.seen) (address_in address.now)
        (network_around (address_in address.now) length.new, value.new) }
    ensures none { result ≡ ART_NONE → NoneContains (held_entries table.old.seen) (address_in address.now) }
    ensures unchanged { result ≢ ART_SOME → (length.new ≡ length.old) × (value.new ≡ value.old) }
    ensures same { table.new ≡ table.old }
{
    let Some(held) = table.lent() else {
        return NO_MAP;
    };
    let found = held.longest_match(address);
    match found {
        Ok(Some((found_length, found_value))) => {
            *length = found_length;
            *value = found_value;
            SOME
        }
        Ok(None) => NONE,
        Err(_) => BAD_NETWORK,
    }
}

/// Finds the longest route to a network around this one, and writes out its length and its value.
#[unsafe(no_mangle)]
pub extern "C" fn art_routes_parent(
    table: &mut RoutesView,
    address: &[u8],
    length: u8,
    parent_length: &mut u8,
    value: &mut u64,
) -> u32
    ensures no_map { (result ≡ ART_NO_MAP) ↔ (table.old.seen ≡ None) }
    ensures bad_network { result ≢ ART_NO_MAP →
        (result ≡ ART_BAD_NETWORK) ↔ (is_network address.now length ≡ false) }
    ensures status { (result ≢ ART_NO_MAP) × (result ≢ ART_BAD_NETWORK) →
        (result ≡ ART_SOME) ⊎ (result ≡ ART_NONE) }
    ensures parent { result ≡ ART_SOME → IsParent (held_entries table.old.seen) (network_in address.now length)
        (network_around (address_in address.now) parent_length.new, value.new) }
    ensures none { result ≡ ART_NONE → NoneAround (held_entries table.old.seen) (network_in address.now length) }
    ensures unchanged { result ≢ ART_SOME → (parent_length.new ≡ parent_length.old) × (value.new ≡ value.old) }
    ensures same { table.new ≡ table.old }
{
    let Some(held) = table.lent() else {
        return NO_MAP;
    };
    let found = held.parent(address, length);
    match found {
        Ok(Some((found_length, found_value))) => {
            *parent_length = found_length;
            *value = found_value;
            SOME
        }
        Ok(None) => NONE,
        Err(_) => BAD_NETWORK,
    }
}

/// Looks up many addresses of `width` bytes each, as many as the shortest of the arrays holds: the length and the
/// value of the longest route that contains each of them, or 255 and the value that was there where none does.
/// Writes out how many were looked up.
#[unsafe(no_mangle)]
pub extern "C" fn art_routes_longest_match_many(
    table: &mut RoutesView,
    addresses: &[u8],
    width: usize,
    lengths: &mut [u8],
    values: &mut [u64],
    count: &mut usize,
) -> u32
    ensures no_map { (result ≡ ART_NO_MAP) ↔ (table.old.seen ≡ None) }
    ensures bad_width { result ≢ ART_NO_MAP → (result ≡ ART_BAD_NETWORK) ↔ (is_width width ≡ false) }
    ensures status { (result ≢ ART_NO_MAP) × (result ≢ ART_BAD_NETWORK) → result ≡ ART_NONE }
    ensures count { result ≡ ART_NONE →
        count.new ≡ min (list_length addresses.now / width) (min (list_length lengths.old) (list_length values.old)) }
    ensures matches { result ≡ ART_NONE → (i : ℕ) → i < count.new → IsMatched (held_entries table.old.seen)
        (address_in (take width (drop (i * width) addresses.now))) (get_or values.old i 0)
        (get_or lengths.new i 0, get_or values.new i 0) }
    ensures others { result ≡ ART_NONE → (drop count.new lengths.new ≡ drop count.new lengths.old)
        × (drop count.new values.new ≡ drop count.new values.old) }
    ensures refused { (result ≡ ART_NO_MAP) ⊎ (result ≡ ART_BAD_NETWORK) →
        (lengths.new ≡ lengths.old) × (values.new ≡ values.old) × (count.new ≡ count.old) }
    ensures same { table.new ≡ table.old }
{
    let Some(held) = table.lent() else {
        return NO_MAP;
    };
    let looked_up = held.longest_match_many(addresses, width, lengths, values);
    match looked_up {
        Some(done) => {
            *count = done;
            NONE
        }
        None => BAD_NETWORK,
    }
}

/// Finds the first route at a network or after it, in the order of networks.
#[unsafe(no_mangle)]
pub extern "C" fn art_routes_next(
    table: &mut RoutesView,
    from: &[u8],
    from_length: u8,
    inclusive: bool,
    address_out: &mut [u8],
    width: &mut usize,
    length: &mut u8,
    value: &mut u64,
) -> u32
    ensures no_map { (result ≡ ART_NO_MAP) ↔ (table.old.seen ≡ None) }
    ensures bad_network { result ≢ ART_NO_MAP →
        (result ≡ ART_BAD_NETWORK) ↔ (is_network from.now from_length ≡ false) }
    ensures status { (result ≢ ART_NO_MAP) × (result ≢ ART_BAD_NETWORK) → result ≡ route_status
        (first_of (routes_from inclusive (network_in from.now from_length) (held_entries table.old.seen)))
        (list_length address_out.old) }
    ensures address { (result ≢ ART_NO_MAP) × (result ≢ ART_BAD_NETWORK) → address_out.new ≡ address_written
        (first_of (routes_from inclusive (network_in from.now from_length) (held_entries table.old.seen)))
        address_out.old }
    ensures width { (result ≢ ART_NO_MAP) × (result ≢ ART_BAD_NETWORK) → width.new ≡ width_or
        (first_of (routes_from inclusive (network_in from.now from_length) (held_entries table.old.seen)))
        width.old }
    ensures length { (result ≢ ART_NO_MAP) × (result ≢ ART_BAD_NETWORK) → length.new ≡ length_in
        (first_of (routes_from inclusive (network_in from.now from_length) (held_entries table.old.seen)))
        (list_length address_out.old) length.old }
    ensures value { (result ≢ ART_NO_MAP) × (result ≢ ART_BAD_NETWORK) → value.new ≡ route_value_in
        (first_of (routes_from inclusive (network_in from.now from_length) (held_entries table.old.seen)))
        (list_length address_out.old) value.old }
    ensures refused { (result ≡ ART_NO_MAP) ⊎ (result ≡ ART_BAD_NETWORK) → (address_out.new ≡ address_out.old)
        × (width.new ≡ width.old) × (length.new ≡ length.old) × (value.new ≡ value.old) }
    ensures same { table.new ≡ table.old }
{
    let Some(held) = table.lent() else {
        return NO_MAP;
    };
    let room = address_out.len();
    let found = held.next(from, from_length, inclusive, address_out);
    match found {
        Ok(found) => found_status(found, room, width, length, value),
        Err(_) => BAD_NETWORK,
    }
}

/// Finds the last route at a network or before it, in the order of networks.
#[unsafe(no_mangle)]
pub extern "C" fn art_routes_previous(
    table: &mut RoutesView,
    to: &[u8],
    to_length: u8,
    inclusive: bool,
    address_out: &mut [u8],
    width: &mut usize,
    length: &mut u8,
    value: &mut u64,
) -> u32
    ensures no_map { (result ≡ ART_NO_MAP) ↔ (table.old.seen ≡ None) }
    ensures bad_network { result ≢ ART_NO_MAP →
        (result ≡ ART_BAD_NETWORK) ↔ (is_network to.now to_length ≡ false) }
    ensures status { (result ≢ ART_NO_MAP) × (result ≢ ART_BAD_NETWORK) → result ≡ route_status
        (last_of (routes_to inclusive (network_in to.now to_length) (held_entries table.old.seen)))
        (list_length address_out.old) }
    ensures address { (result ≢ ART_NO_MAP) × (result ≢ ART_BAD_NETWORK) → address_out.new ≡ address_written
        (last_of (routes_to inclusive (network_in to.now to_length) (held_entries table.old.seen)))
        address_out.old }
    ensures width { (result ≢ ART_NO_MAP) × (result ≢ ART_BAD_NETWORK) → width.new ≡ width_or
        (last_of (routes_to inclusive (network_in to.now to_length) (held_entries table.old.seen)))
        width.old }
    ensures length { (result ≢ ART_NO_MAP) × (result ≢ ART_BAD_NETWORK) → length.new ≡ length_in
        (last_of (routes_to inclusive (network_in to.now to_length) (held_entries table.old.seen)))
        (list_length address_out.old) length.old }
    ensures value { (result ≢ ART_NO_MAP) × (result ≢ ART_BAD_NETWORK) → value.new ≡ route_value_in
        (last_of (routes_to inclusive (network_in to.now to_length) (held_entries table.old.seen)))
        (list_length address_out.old) value.old }
    ensures refused { (result ≡ ART_NO_MAP) ⊎ (result ≡ ART_BAD_NETWORK) → (address_out.new ≡ address_out.old)
        × (width.new ≡ width.old) × (length.new ≡ length.old) × (value.new ≡ value.old) }
    ensures same { table.new ≡ table.old }
{
    let Some(held) = table.lent() else {
        return NO_MAP;
    };
    let room = address_out.len();
    let found = held.previous(to, to_length, inclusive, address_out);
    match found {
        Ok(found) => found_status(found, room, width, length, value),
        Err(_) => BAD_NETWORK,
    }
}

/// Writes out the lengths and the values of the routes to a network and to those around it, the longest first, as
/// many as the shorter of both arrays holds, and how many.
#[unsafe(no_mangle)]
pub extern "C" fn art_routes_covering(
    table: &mut RoutesView,
    address: &[u8],
    length: u8,
    lengths: &mut [u8],
    values: &mut [u64],
    count: &mut usize,
) -> u32
    ensures no_map { (result ≡ ART_NO_MAP) ↔ (table.old.seen ≡ None) }
    ensures bad_network { result ≢ ART_NO_MAP →
        (result ≡ ART_BAD_NETWORK) ↔ (is_network address.now length ≡ false) }
    ensures status { (result ≢ ART_NO_MAP) × (result ≢ ART_BAD_NETWORK) → result ≡ ART_NONE }
    ensures count { result ≡ ART_NONE → count.new ≡ list_length (take
        (min (list_length lengths.old) (list_length values.old))
        (covering (network_in address.now length) (held_entries table.old.seen))) }
    ensures lengths { result ≡ ART_NONE → lengths.new ≡ begun_with (lengths_of (take
        (min (list_length lengths.old) (list_length values.old))
        (covering (network_in address.now length) (held_entries table.old.seen)))) lengths.old }
    ensures values { result ≡ ART_NONE → values.new ≡ begun_with (values_of (take
        (min (list_length lengths.old) (list_length values.old))
        (covering (network_in address.now length) (held_entries table.old.seen)))) values.old }
    ensures refused { (result ≡ ART_NO_MAP) ⊎ (result ≡ ART_BAD_NETWORK) →
        (lengths.new ≡ lengths.old) × (values.new ≡ values.old) × (count.new ≡ count.old) }
    ensures same { table.new ≡ table.old }
{
    let Some(held) = table.lent() else {
        return NO_MAP;
    };
    let written = held.covering(address, length, lengths, values);
    match written {
        Some(done) => {
            *count = done;
            NONE
        }
        None => BAD_NETWORK,
    }
}
