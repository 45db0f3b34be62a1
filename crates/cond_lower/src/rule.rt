// The first place that breaks the rule on condition variables.
ghost use Rattle.std.specs.Prelude.{◌≡◌, [], ◌&&◌, not, IfOk};
ghost use Rattle.cond_lower.specs.Rule as rule;

use crate::node::Node;
use crate::notes::Notes;
use c_rules::unless;
use c_tree::Program;
use dg_base::{Bytes, List, Place};
use std::alloc::{AllocError, Global};

// The names of condition variables.
fn cond_names(alloc: Global, nodes: &[Node]) -> Result<List<Bytes>, AllocError>
    ensures { IfOk result (λ names. names ≡ rule.cond_names nodes.now) }
{
    let mut names = List::new(alloc);
    for node in nodes {
        match node {
            Node::Declares { name, is_cond, .. } => {
                if *is_cond {
                    names.push(Bytes::from_slice(alloc, name.as_slice())?)?;
                }
            }
            _ => {}
        }
    }
    Ok(names)
}

fn has_name(names: &[Bytes], name: &[u8]) -> bool
    ensures { result ≡ rule.has_name names.now name.now }
{
    for other in names {
        if other.as_slice() == name {
            return true;
        }
    }
    false
}

fn declares_name(node: &Node, name: &[u8]) -> bool
    ensures { result ≡ rule.declares_name node.now name.now }
{
    match node {
        Node::Declares { name: other, .. } => other.as_slice() == name,
        _ => false,
    }
}

fn is_declared_in(nodes: &[Node], name: &[u8]) -> bool
    ensures { result ≡ rule.is_declared_in nodes.now name.now }
{
    for node in nodes {
        if declares_name(node, name) {
            return true;
        }
    }
    false
}

fn is_named_once(conds: &[Bytes], before: &[Node], name: &[u8]) -> bool
    ensures { result ≡ not (rule.has_name conds.now name.now && rule.is_declared_in before.now name.now) }
{
    !(has_name(conds, name) && is_declared_in(before, name))
}

fn broken_at(conds: &[Bytes], before: &[Node], node: &Node) -> Option<Place>
    ensures { result ≡ rule.broken_at conds.now before.now node.now }
{
    match node {
        Node::Declares {
            place,
            name,
            fits,
            ..
        } => {
            let holds = *fits && is_named_once(conds, before, name.as_slice());
            unless(holds, *place)
        }
        Node::Names { place, name } => unless(!has_name(conds, name.as_slice()), *place),
        Node::Calls { place, name } => unless(has_name(conds, name.as_slice()), *place),
        Node::Breaks { place } => Some(*place),
    }
}

fn first_broken(conds: &[Bytes], nodes: &[Node]) -> Option<Place>
    ensures { result ≡ rule.first_broken conds.now [] nodes.now }
{
    for (number, node) in nodes.iter().enumerate() {
        if let Some(place) = broken_at(conds, &nodes[..number], node) {
            return Some(place);
        }
    }
    None
}

/// The first place that breaks the rule on condition variables.
pub(crate) fn first_bad_cond(alloc: Global, program: &Program) -> Result<Option<Place>, AllocError>
    ensures { IfOk result (λ first. first ≡ rule.first_bad_cond program.now) }
{
    let nodes = Notes { alloc }.program(program)?;
    let conds = cond_names(alloc, nodes.as_slice())?;
    Ok(first_broken(conds.as_slice(), nodes.as_slice()))
}
