//! Loading: the plan of a tree, as steps that make each node after its children.
ghost use Rattle.std.specs.Prelude.{◌≡◌, ◌+◌, ◌<◌, ◌≤◌, List, ◌∷◌, All, length, map, IfOk};
ghost use Rattle.art_steps.specs.Plan.{IsFork, Forks, AreLoadable, IsPlanOf, byte_before, needed};

use crate::keys::KeyIn;
use art_nodes::{NodeType, common_prefix_len};
use std::alloc::{AllocError, Global};

/// A step of a plan. It makes a tree and leaves it under a byte, after the trees that earlier steps
/// made and that no node has taken yet.
#[derive(Clone, Copy)]
pub enum Step {
    /// Takes the next leaf.
    Leaf {
        /// The byte that leads to the leaf.
        byte: u8,
    },
    /// Makes a node over the last `children` trees. Bytes `start` to `end` of each key below are
    /// its prefix.
    Inner {
        /// The byte that leads to the node.
        byte: u8,
        /// Where its prefix begins in the keys below.
        start: usize,
        /// Where its prefix ends.
        end: usize,
        /// How many trees it takes.
        children: usize,
    },
}

// A node that may get further children: so many bytes lead to each of them.
#[derive(Clone, Copy)]
struct Open {
    path: usize,
    children: usize,
}

// How many bytes two keys share. The first one's next byte must be less.
fn fork_index(text: &[u8], next: &[u8]) -> usize
    requires { Forks text.now next.now }
    ensures { IsFork text.now next.now result }
{
    common_prefix_len(text, next)
}

// The byte that leads to what begins at `index`, 0 for the root.
fn byte_to(text: &[u8], index: usize) -> u8
    requires { index ≤ length text.now }
    ensures { result ≡ byte_before text.now index }
{
    if index == 0 { 0 } else { text[index - 1] }
}

/// The steps that make the tree of what has these keys. The keys must ascend, none a prefix of the
/// next.
///
/// One pass over the keys with a stack of the nodes on the path to the last leaf: where two
/// neighbours differ, the nodes further down are finished.
pub fn plan<C, E: KeyIn<C>>(
    alloc: Global,
    context: &C,
    entries: &[E],
) -> Result<Vec<Step>, AllocError>
    requires some { 0 < length entries.now }
    requires there { All (E.is_in context.now) entries.now }
    requires loadable { AreLoadable (map (E.text_in context.now) entries.now) }
    ensures { IfOk result (λ steps. IsPlanOf (map (E.text_in context.now) entries.now) steps.items) }
{
    let mut steps = Vec::with_capacity(alloc, entries.len())?;
    let mut open = Vec::new(alloc);
    let mut top = Open {
        path: 0,
        children: 0,
    };
    for i in 0..entries.len() {
        let text = entries[i].key_in(context);
        let shared = if i + 1 < entries.len() {
            fork_index(text, entries[i + 1].key_in(context)) + 1
        } else {
            0
        };
        let leaf_byte = byte_to(text, shared.max(top.path));
        steps.push(Step::Leaf { byte: leaf_byte })?;
        'closing: while shared < top.path {
            let below: Open = open.pop().unwrap();
            let start = shared.max(below.path);
            let byte = byte_to(text, start);
            steps.push(Step::Inner {
                byte,
                start,
                end: top.path - 1,
                children: top.children + 1,
            })?;
            top = below;
        }
        if top.path < shared {
            open.push(top)?;
            top = Open {
                path: shared,
                children: 0,
            };
        }
        top.children += 1;
    }
    Ok(steps)
}

// How many nodes of a kind a step makes: one or none.
fn nodes_made(step: Step, kind: NodeType) -> usize
    ensures one { result ≤ 1 }
    ensures added { (others : List _) → needed kind (step ∷ others) ≡ result + needed kind others }
{
    match step {
        Step::Leaf { .. } => 0,
        Step::Inner { children, .. } => usize::from(kind.capacity_range().contains(&children)),
    }
}

/// How many nodes of a kind the steps make.
pub fn count_nodes(steps: &[Step], kind: NodeType) -> usize
    ensures { result ≡ needed kind steps.now }
{
    let mut count = 0;
    for step in steps {
        count += nodes_made(*step, kind);
    }
    count
}
