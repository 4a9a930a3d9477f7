//! The steps of the calls that change a tree: the place of a key, spare capacity, one child more or
//! less, and the plan of a load.
//!
//! Whoever uses trees calls `art_tree`, which is made of these: each step asks for what the step
//! before it gave. [`find_place`] finds the place of a key, and [`leaf_beside`] the leaf beside it.
//! [`link_leaf`], [`add_child`], [`trim`] and [`fork_node`] add a leaf, [`take_child`] and
//! [`join_prefix`] remove one. [`plan`] and [`raise`] make the inner nodes over loaded leaves.
#![tactic(auto)]

mod added_child;
mod check;
mod faults;
mod keys;
mod link;
mod parent;
mod place;
mod raising;
mod removed_child;
mod reserving;
mod steps;

pub use added_child::{add_child, fork_node, is_full, trim};
pub use check::{LoadRefusal, refusal_of};
pub use faults::{InsertFault, InsertRefusal, LoadFault};
pub use keys::KeyIn;
pub use link::link_leaf;
pub use parent::{num_children, put_child_or_root};
pub use place::{
    Mismatch, Place, Side, Spot, find_place, leaf_beside, leaf_beside_child, leaves_beside,
    near_end,
};
pub use raising::raise;
pub use removed_child::{join_prefix, other_child, reserve_shrink, take_child};
pub use reserving::{reserve_for_child, reserve_for_fork};
pub use steps::{Step, count_nodes, plan};
