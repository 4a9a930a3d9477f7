//! Tables with a place for each byte, and sets of bytes.
pub(crate) mod byte_set;
pub(crate) mod child_table;
pub(crate) mod index_table;
