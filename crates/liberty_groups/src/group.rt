//! The groups of a library.

ghost use Rattle.std.specs.Prelude.{◌≡◌, [], ◌∷◌, ◌++◌, OnOk, map};
ghost use Rattle.liberty_groups.specs.Trees.{node, no_trees, tree_of, entry_of, with_attribute, with_group};
ghost use Rattle.liberty_groups.specs.Trees.{head_of, attributes_of, groups_of};

use crate::attributes::Attributes;
use crate::span::Span;
use crate::values::Values;
use std::alloc::{AllocError, Global};

/// An attribute, simple or complex: its name, its values in the order of the text (of a complex one without the
/// separators), and the line of its name, counted from 1.
#[derive(Debug, Drop)]
pub struct Attribute {
    pub name: Span,
    pub values: Values,
    pub line: u32,
}

/// A group: its name, its arguments without the separators, the line of its name, counted from 1, its attributes and
/// its inner groups, each in the order of the text. A group that is within another takes no room to spare.
#[derive(Debug, Drop)]
pub struct Group {
    pub name: Span,
    args: Values,
    pub line: u32,
    attributes: Attributes,
    groups: Vec<Group>,
}

/// One more group, with no room to spare where it is the first.
fn push_group(groups: &mut Vec<Group>, group: Group) -> Result<(), AllocError>
    ensures { OnOk result (groups.new.items ≡ groups.old.items ++ group ∷ []) }
{
    if groups.is_empty() {
        groups.reserve_exact(1)?;
    }
    groups.push(group)?;
    Ok(())
}

impl Attribute {
    /// The values.
    pub fn values(&self) -> &[Span]
        ensures { result.now ≡ (entry_of self.now).values }
    {
        self.values.as_slice()
    }
}

impl Group {
    /// A group with nothing in it yet, by its name and its arguments.
    pub fn new(alloc: Global, head: Attribute) -> Group
        ensures { tree_of result ≡ node (entry_of head) [] no_trees }
    {
        Group {
            name: head.name,
            args: head.values,
            line: head.line,
            attributes: Attributes::none(),
            groups: Vec::new(alloc),
        }
    }

    /// The group's name.
    #[tactic(auto, using(crate::proofs::TreeLaws::head_is))]
    pub fn name(&self) -> Span
        ensures { result ≡ (head_of (tree_of self.now)).name }
    {
        self.name
    }

    /// The group's arguments.
    #[tactic(auto, using(crate::proofs::TreeLaws::head_is))]
    pub fn args(&self) -> &[Span]
        ensures { result.now ≡ (head_of (tree_of self.now)).values }
    {
        self.args.as_slice()
    }

    /// The line of the group's name.
    #[tactic(auto, using(crate::proofs::TreeLaws::head_is))]
    pub fn line(&self) -> u32
        ensures { result ≡ (head_of (tree_of self.now)).line }
    {
        self.line
    }

    /// The group's attributes.
    #[tactic(auto, using(crate::proofs::TreeLaws::attributes_are))]
    pub fn attributes(&self) -> &[Attribute]
        ensures { map entry_of result.now ≡ attributes_of (tree_of self.now) }
    {
        self.attributes.as_slice()
    }

    /// The group's inner groups.
    #[tactic(auto, using(crate::proofs::TreeLaws::groups_are))]
    pub fn inner(&self) -> &[Group]
        ensures { map tree_of result.now ≡ groups_of (tree_of self.now) }
    {
        self.groups.as_slice()
    }

    /// The group with one more attribute.
    pub fn add_attribute(&mut self, alloc: Global, attribute: Attribute) -> Result<(), AllocError>
        ensures { OnOk result (tree_of self.new ≡ with_attribute (entry_of attribute) (tree_of self.old)) }
    {
        self.attributes.push(alloc, attribute)?;
        Ok(())
    }

    /// Gives back the room to spare of the attributes.
    fn shrink_attributes(&mut self)
        ensures { tree_of self.new ≡ tree_of self.old }
    {
        self.attributes.shrink();
    }

    /// Gives back the room to spare of the inner groups.
    fn shrink_groups(&mut self)
        ensures { tree_of self.new ≡ tree_of self.old }
    {
        self.groups.shrink_to_fit();
    }

    /// The group with one more inner group, to which nothing is added any more.
    pub fn add_group(&mut self, mut group: Group) -> Result<(), AllocError>
        ensures { OnOk result (tree_of self.new ≡ with_group (tree_of group) (tree_of self.old)) }
    {
        group.shrink_attributes();
        group.shrink_groups();
        push_group(&mut self.groups, group)?;
        Ok(())
    }
}
