//! Route tables as a type without parameters, for the static library: `NumberRoutes`, from IPv4 and IPv6
//! networks to 64-bit values. An address is four bytes or sixteen, the highest first, and a network an address
//! and its length. A contract sees a table as the list of its routes in order, as that of `art_routes`.
#![tactic(auto)]

mod address;
mod available;
mod backwards;
mod differing;
mod number_routes;
mod refusal;

pub use differing::Difference;
pub use number_routes::{NO_ROUTE, NumberRoutes};
pub use refusal::Refusal;
