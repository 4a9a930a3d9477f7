//! Which kind holds how many children.
ghost use Rattle.std.specs.Prelude.{IsTrue};

use art_header::NodeType;

// Kinds are ordered as they are listed.
fn kinds_ascend() -> bool
    ensures { IsTrue result }
{
    NodeType::Node4 < NodeType::Node16
        && NodeType::Node16 < NodeType::Node48
        && NodeType::Node48 < NodeType::Node256
        && NodeType::Node256 < NodeType::Leaf
}
