//! The children of an inner node in order: the iterator, its sources, and bounds.
pub(crate) mod bounds;
pub(crate) mod child_iter;
pub(crate) mod index_pairs;
pub(crate) mod sorted_pairs;
pub(crate) mod table_pairs;
