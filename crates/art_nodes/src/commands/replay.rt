//! Whole runs of child commands.
ghost use Rattle.std.specs.Prelude.{◌≡◌, [], IfOk};
ghost use Rattle.art_nodes.specs.Commands.{run_of};

use crate::commands::child_node::ChildNode;
use crate::commands::command::{ChildCommand, ChildReply};
use art_header::Header;
use std::alloc::{AllocError, Global};

/// The result of [`replay`]: the reply to each command, and the node after the last command.
///
/// (from tests/art_node_tests/nodes/replay.rt.txt)
/// ```rust
/// let mut header = Header::<2>::new(b"abc", 3);
/// header.inc_num_children();
/// let (replies, node) = replay(rt.alloc(), header, &[] as &[Command])?;
/// assert!(rt; replies.is_empty());
/// assert!(rt; node.num_children() == 0);
/// assert!(rt; node.header().prefix_len() == 3);
/// ```
pub type Replayed<K, V, const PREFIX_LEN: usize> = (
    Vec<ChildReply<K, V, PREFIX_LEN>>,
    ChildNode<K, V, PREFIX_LEN>,
);

/// Applies the commands in order to a node with the prefix of `header` and no children, whatever
/// the header's count. Returns the replies in order, and the node.
///
/// The node is of the smallest kind that holds its children ([`ChildNode::node_type`]). Error:
/// [`AllocError`] on an allocation failure; then neither replies nor a node are returned.
pub fn replay<K, V, const PREFIX_LEN: usize>(
    alloc: Global,
    header: Header<PREFIX_LEN>,
    commands: &[ChildCommand<K, V, PREFIX_LEN>],
) -> Result<Replayed<K, V, PREFIX_LEN>, AllocError>
    ensures replies { IfOk result (λ run. run.0.items ≡ (run_of [] commands.now).0) }
    ensures children { IfOk result (λ run. run.1.children ≡ (run_of [] commands.now).1) }
    ensures prefix_len { IfOk result (λ run. run.1.prefix_len ≡ header.entry.prefix_len) }
    ensures stored { IfOk result (λ run. run.1.stored ≡ header.entry.stored) }
{
    let mut node = ChildNode::from_header(header);
    let mut replies = Vec::with_capacity(alloc, commands.len())?;
    for command in commands {
        replies.push(node.apply(alloc, command)?)?;
    }
    Ok((replies, node))
}
