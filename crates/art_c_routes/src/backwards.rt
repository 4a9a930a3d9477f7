//! The routes of a table from the last one down.
ghost use Rattle.std.specs.Prelude.{◌≡◌, true, false, IfOk, OnErr, OnOk};
ghost use Rattle.std.specs.Option.{option_map};
ghost use Rattle.art_c_maps.specs.Entries.{last_of};
ghost use Rattle.art_c_routes.specs.Addresses.{is_network, network_in};
ghost use Rattle.art_c_routes.specs.Found.{address_written, found_parts, routes_to};

use crate::address::{network_from, write_address};
use crate::number_routes::NumberRoutes;
use crate::refusal::Refusal;
use art_routes::{Network, Routes};

impl NumberRoutes {
    // The routes at a network and before it, only before it where it is not included.
    fn routes_to(&self, network: &Network, inclusive: bool) -> Routes<'_, u64>
        ensures { result ≡ routes_to inclusive network.now self.now }
    {
        if inclusive {
            self.table.iter_to(network)
        } else {
            self.table.iter_before(network)
        }
    }

    /// The last route at a network or before it, only before it where it is not included, as [`next`](Self::next) has the
    /// first one.
    pub fn previous(
        &self,
        address: &[u8],
        length: u8,
        inclusive: bool,
        out: &mut [u8],
    ) -> Result<Option<(usize, u8, u64)>, Refusal>
        ensures found { IfOk result (λ found. found ≡ option_map found_parts
            (last_of (routes_to inclusive (network_in address.now length) self.now))) }
        ensures address { OnOk result (out.new ≡ address_written
            (last_of (routes_to inclusive (network_in address.now length) self.now)) out.old) }
        ensures is_network { OnOk result (is_network address.now length ≡ true) }
        ensures refusal_due { OnErr result (is_network address.now length ≡ false) }
        ensures same { OnErr result (out.new ≡ out.old) }
    {
        let Some(to) = network_from(address, length) else {
            return Err(Refusal::BadNetwork);
        };
        let mut routes = self.routes_to(&to, inclusive);
        match routes.next_back() {
            Some((network, value)) => {
                let width = write_address(network.address(), out);
                Ok(Some((width, network.length(), *value)))
            }
            None => Ok(None),
        }
    }
}
