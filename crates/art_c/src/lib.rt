//! Ordered maps for C, by bytes and by 64-bit numbers, and route tables, all to 64-bit values.
//! `bindings/c/art.h` declares the exports, with what a caller owes. Each export borrows the map behind its
//! handle, a call that only looks through a view, and calls one function of `art_c_maps` or `art_c_routes`,
//! whose contract it states again on the entries.
#![tactic(auto)]

mod bytes;
mod bytes_handle;
mod bytes_view;
mod handle;
mod held;
mod loads;
mod networks;
mod number_handle;
mod number_view;
mod numbers;
mod pages;
mod parts;
mod routes;
mod routes_handle;
mod routes_view;
mod statuses;
mod version;
mod view;
