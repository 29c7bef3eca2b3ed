//! Cases of a state, as a text has them.

ghost use Rattle.std.specs.Prelude.{◌≡◌, IfOk, reverse};
ghost use Rattle.queue_checker.specs.Codes.{joined_by, first_tree};
ghost use Rattle.certificate_reader.specs.CaseTexts.{with_node, grown_onto, cases_of};

use known_values::Form;
use known_values::forms::number;
use queue_checker::{Arrow, CaseNode, Cases};
use std::alloc::{AllocError, Global};
use std::mem;

/// A line of the cases of a state.
#[derive(Drop)]
pub enum Node {
    /// Two cases follow: this variable is at most this number, or more.
    Split(u32, u64),
    /// One case, which hands over a form's number of positions.
    Leaf(Form),
    /// Where the leaf above it leads.
    To(Arrow),
}

/// What is made of lines from the last one up: trees, and arrows of a leaf whose line comes before these. The newest stand last.
#[derive(Drop)]
pub struct Growth {
    pub arrows: Vec<Arrow>,
    pub trees: Vec<Cases>,
}

/// Makes one tree of the last two.
fn join(alloc: Global, trees: &mut Vec<Cases>, variable: u32, most: u64) -> Result<(), AllocError>
    ensures { IfOk result (λ x. reverse trees.new.items ≡ joined_by variable most (reverse trees.old.items)) }
{
    let Some(low) = trees.pop() else {
        return Ok(());
    };
    let Some(high) = trees.pop() else {
        return Ok(());
    };
    let low = Box::new(alloc, low)?;
    let high = Box::new(alloc, high)?;
    trees.push(Cases {
        node: CaseNode::Split(variable, most, low, high),
    })?;
    Ok(())
}

impl Growth {
    ghost use Rattle.certificate_reader.specs.Growths.{grown_value};

    /// Takes the line before those that it has.
    fn add(&mut self, alloc: Global, node: Node) -> Result<(), AllocError>
        ensures { IfOk result (λ x. grown_value self.new ≡ with_node node (grown_value self.old)) }
    {
        match node {
            Node::Split(variable, most) => {
                self.arrows = Vec::new(alloc);
                join(alloc, &mut self.trees, variable, most)
            }
            Node::Leaf(handed) => {
                let mut arrows = mem::replace(&mut self.arrows, Vec::new(alloc));
                arrows.reverse();
                self.trees.push(Cases {
                    node: CaseNode::Leaf(handed, arrows),
                })?;
                Ok(())
            }
            Node::To(arrow) => {
                self.arrows.push(arrow)?;
                Ok(())
            }
        }
    }

    /// Takes all lines, the last one first.
    #[tactic(auto, unfolding(crate::specs::CaseTexts::grown_onto))]
    fn add_all(&mut self, alloc: Global, mut nodes: Vec<Node>) -> Result<(), AllocError>
        ensures { IfOk result (λ x. grown_value self.new ≡ grown_onto (grown_value self.old) (reverse nodes.items)) }
    {
        while let Some(node) = nodes.pop() {
            self.add(alloc, node)?;
        }
        Ok(())
    }

    /// The first tree.
    fn first(mut self, alloc: Global) -> Cases
        ensures { result ≡ first_tree (grown_value self).trees }
    {
        match self.trees.pop() {
            Some(tree) => tree,
            None => Cases {
                node: CaseNode::Leaf(number(alloc, 0), Vec::new(alloc)),
            },
        }
    }
}

/// The tree of a state's lines.
pub fn tree(alloc: Global, nodes: Vec<Node>) -> Result<Cases, AllocError>
    ensures { IfOk result (λ cases. cases ≡ cases_of (reverse nodes.items)) }
{
    let mut growth = Growth {
        arrows: Vec::new(alloc),
        trees: Vec::new(alloc),
    };
    growth.add_all(alloc, nodes)?;
    Ok(growth.first(alloc))
}
