//! Replies to lines.
ghost use Rattle.std.specs.Prelude.{◌≡◌, ◌++◌, length, IfOk, OnOk, string_bytes};
ghost use Rattle.std.specs.List.{flat_map};
ghost use Rattle.program_lines.specs.Lines.{line};
ghost use Rattle.art_cli.specs.Reply.{kind_text, pair_text, reply_text, output_of};

use crate::replay::nodes::{Child, Leaf, Node, Reply};
use art_tree::{ChildReply, NodeType};
use std::alloc::{AllocError, Global};
use std::fmt;

/// A line for each reply, and the line of the node that is left.
pub(crate) fn text_of(alloc: Global, replies: &[Reply], node: &Node) -> Result<String, AllocError>
    ensures { IfOk result (λ text.
        string_bytes text ≡ output_of replies.now (length node.now.children)) }
{
    let mut text = String::new(alloc);
    for reply in replies {
        print_reply(&mut text, reply)?;
    }
    let kind = kind_name(node.node_type());
    let count = node.num_children();
    writeln!(text, "node {kind} {count}")?;
    Ok(text)
}

// The line of one reply.
fn print_reply(text: &mut String, reply: &Reply) -> Result<(), AllocError>
    ensures { OnOk result
        (string_bytes text.new ≡ string_bytes text.old ++ line (reply_text reply.now)) }
{
    match reply {
        ChildReply::Child(None) => writeln!(text, "child none"),
        ChildReply::Child(Some(child)) => writeln!(text, "child {}", Shown(*child)),
        ChildReply::Pair(None) => writeln!(text, "pair none"),
        ChildReply::Pair(Some((byte, child))) => writeln!(text, "pair {byte} {}", Shown(*child)),
        ChildReply::Pairs(pairs) => {
            text.push_str("pairs")?;
            print_pairs(text, pairs.as_slice())?;
            writeln!(text)
        }
        ChildReply::InvalidBounds => writeln!(text, "invalid bounds"),
    }
}

fn print_pairs(text: &mut String, pairs: &[(u8, Child)]) -> Result<(), AllocError>
    ensures { OnOk result
        (string_bytes text.new ≡ string_bytes text.old ++ flat_map pair_text pairs.now) }
{
    for (byte, child) in pairs {
        write!(text, " {byte}:{}", Shown(*child))?;
    }
    Ok(())
}

fn kind_name(kind: NodeType) -> &'static str
    ensures { result.now ≡ kind_text kind }
{
    match kind {
        NodeType::Node4 => "Node4",
        NodeType::Node16 => "Node16",
        NodeType::Node48 => "Node48",
        NodeType::Node256 => "Node256",
        NodeType::Leaf => "Leaf",
    }
}

// A child as a line shows it: by the key of its leaf.
#[derive(Clone, Copy)]
struct Shown(Child);

impl fmt::Display for Shown {
    ghost use Rattle.std.specs.Prelude.{Some};
    ghost use Rattle.art_cli.specs.Reply.{child_text};

    ghost output = { λ shown. Some (child_text shown.0) };

    fn fmt<W: fmt::Write>(&self, f: &mut fmt::Formatter<W>) -> fmt::Result {
        match self.0.cast::<Leaf>() {
            Some(leaf) => write!(f, "{}", leaf.key()),
            None => write!(f, "none"),
        }
    }
}
