//! The networks of a length that no route overlaps, as C has them.
ghost use Rattle.std.specs.Prelude.{◌≡◌, ◌≤◌, ◌/◌, ◌++◌, ◌&&◌, true, false, List, All, IfNone, IfSome, drop, length as list_length, take};
ghost use Rattle.art_routes.specs.Networks.{Block, address_of};
ghost use Rattle.art_c_maps.specs.Entries.{begun_with};
ghost use Rattle.art_c_maps.specs.Buffers.{written};
ghost use Rattle.art_c_routes.specs.Addresses.{address_bytes, is_network, is_width, network_in};
ghost use Rattle.art_c_routes.specs.Available.{AreAvailable, is_place, joined_addresses};

use crate::address::{network_from, write_address};
use crate::number_routes::NumberRoutes;
use art_routes::{Free, Network};
use std::net::IpAddr;

// Writes an address behind the first `at` bytes.
fn write_address_at(address: IpAddr, out: &mut [u8], at: usize)
    requires { at ≤ list_length out.old }
    ensures { out.new ≡ take at out.old ++ written (address_bytes (address_of address)) (drop at out.old) }
{
    write_address(address, &mut out[at..]);
}

// Writes the addresses of the first of these networks, which have so many bytes each: as many as fit. Returns how many.
fn write_addresses(mut free: Free<'_, u64>, width: usize, out: &mut [u8]) -> usize
    requires width { is_width width ≡ true }
    requires widths { All (λ part. list_length (address_bytes part.address) ≡ width) free }
    ensures count { result ≡ list_length (take (list_length out.old / width) free.entry) }
    ensures addresses { out.new ≡ begun_with (joined_addresses (take (list_length out.old / width) free.entry)) out.old }
{
    let room = out.len() / width;
    for index in 0..room {
        match free.next() {
            Some(part) => {
                write_address_at(part.address(), out, index * width);
            }
            None => return index,
        }
    }
    room
}

impl NumberRoutes {
    // The free networks of a length inside a network that begin behind a place, if that is one.
    fn available(&self, network: &Network, length: u8, after: &[u8]) -> Option<Free<'_, u64>>
        ensures available { IfSome result (AreAvailable self.now network.now length after.now) }
        ensures is_place { IfSome result (λ free. is_place network.now length after.now ≡ true) }
        ensures is_not { IfNone result (is_place network.now length after.now ≡ false) }
    {
        if after.len() == 0 {
            return Some(self.table.free(network, length));
        }
        let place = network_from(after, length)?;
        self.table.free_after(network, length, &place)
    }

    /// Writes the addresses of the networks of `part_length` bits inside a network that no route overlaps, in order, one
    /// behind another, as many as fit. They begin behind the one of so many bits with the address `after`, which is inside
    /// the network, or with the first where that has no bytes. Returns how many, or None where either is no network. Takes
    /// no memory.
    pub fn available_many(
        &self,
        address: &[u8],
        length: u8,
        part_length: u8,
        after: &[u8],
        addresses: &mut [u8],
    ) -> Option<usize>
        ensures written { IfSome result (λ count. (free : List Block)
            × AreAvailable self.now (network_in address.now length) part_length after.now free
            × (count ≡ list_length (take (list_length addresses.old / list_length address.now) free))
            × (addresses.new ≡ begun_with (joined_addresses (take (list_length addresses.old / list_length address.now) free)) addresses.old)) }
        ensures is_network { IfSome result (λ count. is_network address.now length ≡ true) }
        ensures is_place { IfSome result (λ count. is_place (network_in address.now length) part_length after.now ≡ true) }
        ensures refusal_due { IfNone result
            ((is_network address.now length && is_place (network_in address.now length) part_length after.now) ≡ false) }
        ensures same { IfNone result (addresses.new ≡ addresses.old) }
    {
        let network = network_from(address, length)?;
        let free = self.available(&network, part_length, after)?;
        Some(write_addresses(free, address.len(), addresses))
    }
}
