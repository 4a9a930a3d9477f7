//! The statuses that calls return, as the header names them.

pub(crate) const NONE: u32 = 0;

pub(crate) const SOME: u32 = 1;

pub(crate) const NO_MEMORY: u32 = 2;

pub(crate) const KEY_TOO_LONG: u32 = 3;

pub(crate) const SMALL_BUFFER: u32 = 4;

pub(crate) const NO_MAP: u32 = 5;

pub(crate) const HAS_MAP: u32 = 6;

pub(crate) const NOT_EMPTY: u32 = 7;

pub(crate) const NOT_ASCENDING: u32 = 8;

pub(crate) const BAD_NETWORK: u32 = 9;

// The changes by which a table becomes as another, as the header names them.

pub(crate) const INSERT: u8 = 0;

pub(crate) const REMOVE: u8 = 1;

pub(crate) const REPLACE: u8 = 2;
