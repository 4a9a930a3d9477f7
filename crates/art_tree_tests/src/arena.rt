//! Callers of the arena, of the list of its leaves, and of full prefixes.
mod full_prefix;
mod leaf_links;

use art_arena::{ArenaNode, NodeArena};
use art_bytes::AsBytes;
use art_links::FullPrefix;
use art_nodes::{InnerNode4, InnerNodeCommon, InnerNodeRead, NodePtr};
