//! Route tables: values by IPv4 and IPv6 networks, of which the longest that contains an address is
//! found. A contract sees a network as numbers, and a table as the list of its routes in order.
//! `CALLING.md` shows how they are used.
#![tactic(auto)]

mod address;
mod aggregate;
mod children;
mod covering;
mod difference;
mod ends;
mod fault;
mod free;
mod holds_routes;
mod leaves;
mod network;
mod reader;
mod refused_route;
mod retaining;
mod route_entry;
mod route_key;
mod routes;
mod table;
mod text;
mod way;

pub use children::Children;
pub use covering::Covering;
pub use difference::{Change, Differences};
pub use fault::{NetworkFault, NetworkTextFault};
pub use free::Free;
pub use network::Network;
pub use reader::RouteReader;
pub use refused_route::RefusedRoute;
pub use route_entry::{OccupiedRoute, RouteEntry, VacantRoute};
pub use routes::{IntoRoutes, Routes};
pub use table::RouteTable;

/// What the aliases above stand for. The compiler needs these names; no caller writes them.
#[doc(hidden)]
pub mod parts {
    pub use crate::children::ChildrenOver;
    pub use crate::covering::{CoveringOver, ShowsRoutes};
    pub use crate::difference::{DifferencesOver, PeekedRoutes};
    pub use crate::free::FreeOver;
    pub use crate::holds_routes::HoldsRoutes;
    pub use crate::reader::{ReaderOver, ReadsRoutes};
    pub use crate::route_entry::{OccupiedRouteOver, RouteEntryOver, VacantRouteOver};
    pub use crate::route_key::RouteKey;
    pub use crate::routes::{HasRuns, RoutesOver};
    pub use crate::table::TableOver;
}
