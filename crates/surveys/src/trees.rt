//! Numbers of lists of words. Lists that differ in few words share most of what is kept of them.
//!
//! How a list becomes a tree is not stated: its tree is unfolded again, and compared with the list.

ghost use Rattle.std.specs.Prelude.{◌≡◌, ◌++◌, ◌≤◌, ◌%◌, ◌/◌, [], ◌∷◌, Some, IfOk, IfSome, IsTrue, OnOk, OnErr, length, slice_get, slice_index, take};
ghost use Rattle.std.specs.List.{flat_map};
ghost use Rattle.surveys.specs.inner.Trees.{Grew, HasNodes, NumbersTree, four_numbers, node_at, tree_of, tree_words};

use crate::keys::{Draft, Keys};
use std::alloc::{AllocError, Global};
use std::marker::Model;

/// How many numbers a node has.
const NODE: usize = 4;

/// More levels than a tree of words has that fit a memory.
const MOST_LEVELS: u32 = 31;

/// A list of words as a tree.
#[derive(Clone, Copy)]
pub(crate) struct Tree {
    /// The number of its top node, or its one word.
    pub top: u32,
    /// How many levels of nodes it has.
    pub levels: u32,
    /// How many words.
    pub count: u32,
    /// As many nodes, from the first on, have all that it names.
    pub nodes: u32,
}

/// Room for the numbers of two levels.
#[derive(Drop)]
pub struct Room {
    words: Vec<u32>,
    others: Vec<u32>,
}

impl Room {
    pub fn new(alloc: Global) -> Self {
        Room {
            words: Vec::new(alloc),
            others: Vec::new(alloc),
        }
    }
}

fn joined(low: u32, high: u32) -> u64
    ensures low { result % 4294967296 ≡ low }
    ensures high { result / 4294967296 ≡ high }
{
    u64::from(low) + u64::from(high) * 4_294_967_296
}

#[inline(always)]
fn low(word: u64) -> u32
    ensures { result ≡ word % 4294967296 }
{
    (word % 4_294_967_296) as u32
}

#[inline(always)]
fn high(word: u64) -> u32
    ensures { result ≡ word / 4294967296 }
{
    (word / 4_294_967_296) as u32
}

fn number_in(numbers: &[u32], place: usize) -> u32
    ensures { result ≡ slice_index numbers.now place }
{
    numbers.get(place).copied().unwrap_or(0)
}

/// The key of a node with these numbers, and zeros after them.
fn node_of(numbers: &[u32]) -> [u64; 2]
    ensures { four_numbers result ≡ slice_index numbers.now 0 ∷ slice_index numbers.now 1 ∷ slice_index numbers.now 2 ∷ slice_index numbers.now 3 ∷ [] }
{
    [
        joined(number_in(numbers, 0), number_in(numbers, 1)),
        joined(number_in(numbers, 2), number_in(numbers, 3)),
    ]
}

fn key_of(tree: Tree) -> [u64; 2]
    ensures { tree_of result ≡ tree }
{
    [
        joined(tree.top, tree.levels),
        joined(tree.count, tree.nodes),
    ]
}

fn tree_in(key: &[u64; 2]) -> Tree
    ensures { result ≡ tree_of key.now }
{
    Tree {
        top: low(key[0]),
        levels: high(key[0]),
        count: low(key[1]),
        nodes: high(key[1]),
    }
}

/// The numbers of a node, which is one of the first `within`.
#[inline(always)]
fn node_at(nodes: &Keys<2>, within: u32, number: u32) -> [u32; NODE]
    ensures { result ≡ node_at (take within nodes.now) number }
{
    if number >= within {
        return [0; NODE];
    }
    let key = nodes.key(number as usize);
    [low(key[0]), high(key[0]), low(key[1]), high(key[1])]
}

/// Writes the numbers of all these nodes, in the place of what `below` holds.
fn nodes_into(
    nodes: &Keys<2>,
    within: u32,
    numbers: &[u32],
    below: &mut Vec<u32>,
) -> Result<(), AllocError>
    ensures { OnOk result (below.new.items ≡ flat_map (node_at (take within nodes.now)) numbers.now) }
{
    below.clear();
    for number in numbers {
        below.extend_from_slice(&node_at(nodes, within, *number))?;
    }
    Ok(())
}

/// Writes a tree's words, in the place of what `words` holds.
fn unfold(
    nodes: &Keys<2>,
    tree: Tree,
    words: &mut Vec<u32>,
    others: &mut Vec<u32>,
) -> Result<(), AllocError>
    ensures { OnOk result (words.new.items ≡ tree_words nodes.now tree) }
{
    words.clear();
    words.push(tree.top)?;
    for _ in 0..tree.levels {
        nodes_into(nodes, tree.nodes, words, others)?;
        std::mem::swap(words, others);
    }
    words.truncate(tree.count as usize);
    Ok(())
}

/// Whether these are the tree's words.
fn is_of(nodes: &Keys<2>, tree: Tree, words: &[u32], room: &mut Room) -> Result<bool, AllocError>
    ensures { IfOk result (λ yes. IsTrue yes → tree_words nodes.now tree ≡ words.now) }
{
    unfold(nodes, tree, &mut room.words, &mut room.others)?;
    Ok(room.words.as_slice() == words)
}

/// The number of a node, which is added if it isn't found.
fn number_of(nodes: &mut Keys<2>, node: [u64; 2]) -> Result<u32, AllocError>
    ensures grew { Grew nodes.old nodes.new }
    ensures there { IfOk result (λ number. slice_get nodes.new number ≡ Some node) }
{
    let draft = Draft::new(node);
    if let Some(number) = nodes.find(&draft) {
        return Ok(number);
    }
    nodes.make_room(1)?;
    let number = u32::try_from(nodes.len()).map_err(|_| AllocError)?;
    if nodes.insert(&draft)? {
        Ok(number)
    } else {
        Err(AllocError)
    }
}

/// Writes the number of a node for every four of these numbers, in the place of what `above` holds, and answers how many
/// nodes have these and what `most` do.
fn fold(
    nodes: &mut Keys<2>,
    numbers: &[u32],
    above: &mut Vec<u32>,
    most: u32,
) -> Result<u32, AllocError>
    ensures { Grew nodes.old nodes.new }
{
    let mut most = most;
    above.clear();
    for four in numbers.chunks(NODE) {
        let number = number_of(nodes, node_of(four))?;
        most = most.max(number.saturating_add(1));
        above.push(number)?;
    }
    Ok(most)
}

/// A tree of these words, of which each node is added that isn't found.
fn planted(nodes: &mut Keys<2>, words: &[u32], room: &mut Room) -> Result<Tree, AllocError>
    ensures { Grew nodes.old nodes.new }
{
    let count = u32::try_from(words.len()).map_err(|_| AllocError)?;
    room.words.clear();
    room.words.extend_from_slice(words)?;
    let mut most = 0;
    for levels in 0..MOST_LEVELS {
        if room.words.len() <= 1 {
            return Ok(Tree {
                top: number_in(&room.words, 0),
                levels,
                count,
                nodes: most,
            });
        }
        most = fold(nodes, &room.words, &mut room.others, most)?;
        std::mem::swap(&mut room.words, &mut room.others);
    }
    Err(AllocError)
}

/// The same of nodes that are found. It is `None` where one isn't.
fn fold_known(
    nodes: &Keys<2>,
    numbers: &[u32],
    above: &mut Vec<u32>,
    most: u32,
) -> Result<Option<u32>, AllocError> {
    let mut most = most;
    above.clear();
    for four in numbers.chunks(NODE) {
        let Some(number) = nodes.find(&Draft::new(node_of(four))) else {
            return Ok(None);
        };
        most = most.max(number.saturating_add(1));
        above.push(number)?;
    }
    Ok(Some(most))
}

/// The tree of these words, if each of its nodes is found.
fn known(nodes: &Keys<2>, words: &[u32], room: &mut Room) -> Result<Option<Tree>, AllocError> {
    let count = u32::try_from(words.len()).map_err(|_| AllocError)?;
    room.words.clear();
    room.words.extend_from_slice(words)?;
    let mut nodes_named = 0;
    for levels in 0..MOST_LEVELS {
        if room.words.len() <= 1 {
            return Ok(Some(Tree {
                top: number_in(&room.words, 0),
                levels,
                count,
                nodes: nodes_named,
            }));
        }
        match fold_known(nodes, &room.words, &mut room.others, nodes_named)? {
            Some(most) => nodes_named = most,
            None => return Ok(None),
        }
        std::mem::swap(&mut room.words, &mut room.others);
    }
    Ok(None)
}

/// A number of the tree of these words: an old one if one is found, else the next.
fn number_tree(
    nodes: &Keys<2>,
    trees: &mut Keys<2>,
    tree: Tree,
    words: &[u32],
    room: &mut Room,
) -> Result<usize, AllocError>
    ensures numbered { IfOk result (NumbersTree nodes.now trees.old words.now trees.new) }
    ensures err { OnErr result (trees.new ≡ trees.old) }
{
    // a tree that was planted is of its words
    if tree.nodes as usize > nodes.len() {
        return Err(AllocError);
    }
    if !is_of(nodes, tree, words, room)? {
        return Err(AllocError);
    }
    let draft = Draft::new(key_of(tree));
    if let Some(number) = trees.find(&draft) {
        return Ok(number as usize);
    }
    trees.make_room(1)?;
    let number = trees.len();
    if trees.insert(&draft)? {
        Ok(number)
    } else {
        Err(AllocError)
    }
}

/// Lists of words by number; seen as the list of them.
#[derive(Drop)]
pub struct Trees {
    nodes: Keys<2>,
    /// The tree of each list.
    trees: Keys<2>,
    room: Room,
    ghost named: { HasNodes nodes trees },
}

impl Model for Trees {
    ghost use Rattle.std.specs.Prelude.{ℕ, List};
    ghost use Rattle.surveys.specs.inner.Trees.{tree_lists};

    ghost Value = { List (List ℕ) };

    ghost view = { λ s. tree_lists s.nodes s.trees };
}

impl Trees {
    ghost use Rattle.states.specs.States.{words_at};
    ghost use Rattle.surveys.specs.inner.Trees.{IsNumberedAgain};

    /// The list of no words alone.
    pub fn new(alloc: Global) -> Result<Self, AllocError>
        ensures { IfOk result (λ trees. trees ≡ [] ∷ []) }
    {
        Ok(Trees {
            nodes: Keys::new(alloc, [0; 2])?,
            trees: Keys::new(alloc, [0; 2])?,
            room: Room::new(alloc),
        })
    }

    /// How many are numbered, which is the number of the next new one.
    pub fn len(&self) -> usize
        ensures { result ≡ length self.now }
    {
        self.trees.len()
    }

    /// A number of these words: an old one if one is found, else the next. An error changes no list.
    pub fn number(&mut self, words: &[u32]) -> Result<usize, AllocError>
        ensures numbered { IfOk result (IsNumberedAgain self.old words.now self.new) }
        ensures err { OnErr result (self.new ≡ self.old) }
    {
        let tree = planted(&mut self.nodes, words, &mut self.room)?;
        number_tree(&self.nodes, &mut self.trees, tree, words, &mut self.room)
    }

    /// A number of these words, if one is found.
    pub fn find(&self, words: &[u32], room: &mut Room) -> Result<Option<usize>, AllocError>
        ensures { IfOk result (λ found. IfSome found (λ number. slice_get self.now number ≡ Some words.now)) }
    {
        let Some(tree) = known(&self.nodes, words, room)? else {
            return Ok(None);
        };
        if !is_of(&self.nodes, tree, words, room)? {
            return Ok(None);
        }
        match self.trees.find(&Draft::new(key_of(tree))) {
            Some(number) => Ok(Some(number as usize)),
            None => Ok(None),
        }
    }

    /// Writes the words of this number in the place of what `words` holds, and no word for a number that none has.
    pub fn words_into(
        &self,
        number: usize,
        words: &mut Vec<u32>,
        room: &mut Room,
    ) -> Result<(), AllocError>
        ensures { OnOk result (words.new.items ≡ words_at self.now number) }
    {
        unfold(
            &self.nodes,
            tree_in(&self.trees.key(number)),
            words,
            &mut room.others,
        )
    }
}
