//! Inner nodes: traits, representations, tables, the builder, and matches of a prefix.
pub(crate) mod builder;
pub(crate) mod prefix_match;
pub(crate) mod representations;
pub(crate) mod tables;
pub(crate) mod traits;

/// Evaluates an expression on the node of an enum that has a variant for each kind of inner node.
#[macro_export]
macro_rules! with_node {
    ($kinds:ident, $any:expr, $node:ident => $run:expr) => {
        match $any {
            $kinds::Node4($node) => $run,
            $kinds::Node16($node) => $run,
            $kinds::Node48($node) => $run,
            $kinds::Node256($node) => $run,
        }
    };
}
