//! Balanced trees of pairs. A tree with one pair more shares all but one path with the old one.
ghost use Rattle.std.specs.Prelude.{◌≡◌, ◌++◌, ◌∷◌, [], IfOk};
ghost use Rattle.std.specs.List.{find};
ghost use Rattle.std.specs.Option.{option_copied};
ghost use Rattle.std.specs.Arc.{arc_value};
ghost use Rattle.derivation_cache.specs.Known.{is_of};
ghost use Rattle.derivation_cache.specs.Trees.{in_order, names_order, put, IsRising};

use crate::pair::Pair;
use names_alias::Name;
use std::alloc::{AllocError, Global};
use std::cmp::Ordering;
use std::sync::Arc;

/// Pairs in the order of their names.
#[derive(Drop)]
#[cycle(tree)]
pub enum Tree {
    Leaf,
    Fork(Arc<Node, Global>),
}

/// A pair, with those before it on the left and those after it on the right.
#[derive(Drop)]
#[cycle(tree)]
pub struct Node {
    pair: Arc<Pair, Global>,
    height: u32,
    left: Tree,
    right: Tree,
}

/// Where two names stand beside those of a pair.
#[inline]
fn place(from: &Name, to: &Name, pair: &Pair) -> Ordering
    ensures { result ≡ names_order from.now to.now pair.now }
{
    match from.cmp(&pair.from) {
        Ordering::Equal => to.cmp(&pair.to),
        other => other,
    }
}

fn height(tree: &Tree) -> u32 {
    match tree {
        Tree::Leaf => 0,
        Tree::Fork(node) => node.height,
    }
}

/// The same tree once more.
fn shared(tree: &Tree) -> Result<Tree, AllocError>
    ensures { IfOk result (λ t. in_order t ≡ in_order tree.now) }
{
    match tree {
        Tree::Leaf => Ok(Tree::Leaf),
        Tree::Fork(node) => Ok(Tree::Fork(Arc::try_clone(node)?)),
    }
}

/// A pair between two trees.
fn fork(alloc: Global, left: Tree, pair: Arc<Pair, Global>, right: Tree) -> Result<Tree, AllocError>
    ensures { IfOk result (λ t. in_order t ≡ in_order left ++ arc_value pair ∷ in_order right) }
{
    let height = height(&left).max(height(&right)).saturating_add(1);
    Ok(Tree::Fork(Arc::new(
        alloc,
        Node {
            pair,
            height,
            left,
            right,
        },
    )?))
}

/// A pair between a left tree that is too high and a right one.
fn lowered_left(
    alloc: Global,
    left: &Node,
    pair: Arc<Pair, Global>,
    right: Tree,
) -> Result<Tree, AllocError>
    ensures { IfOk result (λ t. in_order t
        ≡ (in_order left.now.left ++ arc_value left.now.pair ∷ in_order left.now.right)
        ++ arc_value pair ∷ in_order right) }
{
    let outer = shared(&left.left)?;
    let top = Arc::try_clone(&left.pair)?;
    if let Tree::Fork(middle) = &left.right
        && height(&left.left) < middle.height
    {
        let first = fork(alloc, outer, top, shared(&middle.left)?)?;
        let last = fork(alloc, shared(&middle.right)?, pair, right)?;
        return fork(alloc, first, Arc::try_clone(&middle.pair)?, last);
    }
    let last = fork(alloc, shared(&left.right)?, pair, right)?;
    fork(alloc, outer, top, last)
}

/// A pair between a left tree and a right one that is too high.
fn lowered_right(
    alloc: Global,
    left: Tree,
    pair: Arc<Pair, Global>,
    right: &Node,
) -> Result<Tree, AllocError>
    ensures { IfOk result (λ t. in_order t ≡ in_order left ++ arc_value pair
        ∷ (in_order right.now.left ++ arc_value right.now.pair ∷ in_order right.now.right)) }
{
    let outer = shared(&right.right)?;
    let top = Arc::try_clone(&right.pair)?;
    if let Tree::Fork(middle) = &right.left
        && height(&right.right) < middle.height
    {
        let first = fork(alloc, left, pair, shared(&middle.left)?)?;
        let last = fork(alloc, shared(&middle.right)?, top, outer)?;
        return fork(alloc, first, Arc::try_clone(&middle.pair)?, last);
    }
    let first = fork(alloc, left, pair, shared(&right.left)?)?;
    fork(alloc, first, top, outer)
}

/// A pair between two trees, of heights that differ by two at most.
fn balanced(
    alloc: Global,
    left: Tree,
    pair: Arc<Pair, Global>,
    right: Tree,
) -> Result<Tree, AllocError>
    ensures { IfOk result (λ t. in_order t ≡ in_order left ++ arc_value pair ∷ in_order right) }
{
    let left_height = height(&left);
    let right_height = height(&right);
    if let Tree::Fork(node) = &left
        && left_height > right_height.saturating_add(1)
    {
        return lowered_left(alloc, node, pair, right);
    }
    if let Tree::Fork(node) = &right
        && right_height > left_height.saturating_add(1)
    {
        return lowered_right(alloc, left, pair, node);
    }
    fork(alloc, left, pair, right)
}

impl Tree {
    /// The tree with one pair more.
    pub(crate) fn with(&self, alloc: Global, pair: Arc<Pair, Global>) -> Result<Tree, AllocError>
        requires { IsRising (in_order self.now) }
        ensures { IfOk result (λ t. in_order t ≡ put (arc_value pair) (in_order self.now)) }
    {
        match self {
            Tree::Leaf => fork(alloc, Tree::Leaf, pair, Tree::Leaf),
            Tree::Fork(node) => {
                let here = Arc::try_clone(&node.pair)?;
                match place(&pair.from, &pair.to, &node.pair) {
                    Ordering::Less => {
                        let left = node.left.with(alloc, pair)?;
                        balanced(alloc, left, here, shared(&node.right)?)
                    }
                    _ => {
                        let right = node.right.with(alloc, pair)?;
                        balanced(alloc, shared(&node.left)?, here, right)
                    }
                }
            }
        }
    }

    /// The pair of these names.
    pub(crate) fn pair(&self, from: &Name, to: &Name) -> Option<&Pair>
        requires { IsRising (in_order self.now) }
        ensures { option_copied result ≡ find (is_of from.now to.now) (in_order self.now) }
    {
        match self {
            Tree::Leaf => None,
            Tree::Fork(node) => match place(from, to, &node.pair) {
                Ordering::Less => node.left.pair(from, to),
                Ordering::Equal => Some(&*node.pair),
                Ordering::Greater => node.right.pair(from, to),
            },
        }
    }
}
