//! Leaves that are linked by hand.
use art_arena::{LeafPtr, NodeArena};
use art_bytes::AsBytes;
use art_links::LeafLinks;
use art_nodes::{LeafNode, NodePtr};

mod link_examples;

type Key = [u8; 1];

type Leaf<const PREFIX_LEN: usize> = LeafNode<Key, u8, PREFIX_LEN>;
