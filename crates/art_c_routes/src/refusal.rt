//! Why a call is refused.

/// Why a call of [`NumberRoutes`](crate::NumberRoutes) is refused. The table is unchanged.
#[derive(Clone, Copy, PartialEq, Eq, Debug)]
pub enum Refusal {
    /// The bytes and the length are no network: not four bytes nor sixteen, a length above their bits, or a
    /// bit that is set behind it.
    BadNetwork,
    /// An allocation failed.
    OutOfMemory,
}
