//! The tree of a pattern, node by node.
use crate::answer::Answer;
use crate::patterns::pattern_of;
use crate::reading::split_word;
use crate::row::{Row, number_of};
use lexre::{ByteSet, Pattern};
use std::alloc::{AllocError, Global};

/// A node of a tree, before its parts.
#[derive(Clone, Copy)]
enum Node {
    Empty,
    /// A set of the bytes that a field of the row lists.
    Bytes(usize),
    /// The set of all bytes but those.
    AllBut(usize),
    /// A series of so many parts.
    Series(usize),
    /// A choice between so many parts.
    Choice(usize),
    Star,
    /// At least and at most so often.
    Repeat(usize, Option<usize>),
}

/// The node that a word and what stands behind it say, in the field of this number.
fn node_of(word: &[u8], rest: &[u8], at: usize) -> Option<Node> {
    if word == b"bytes".as_slice() {
        Some(Node::Bytes(at))
    } else if word == b"but".as_slice() {
        Some(Node::AllBut(at))
    } else if word == b"series".as_slice() {
        Some(Node::Series(number_of(rest)?))
    } else if word == b"choice".as_slice() {
        Some(Node::Choice(number_of(rest)?))
    } else if word == b"repeat".as_slice() {
        let (least, most) = split_word(rest);
        Some(Node::Repeat(number_of(least)?, number_of(most)))
    } else if word == b"star".as_slice() {
        Some(Node::Star)
    } else if word == b"empty".as_slice() {
        Some(Node::Empty)
    } else {
        None
    }
}

/// The nodes of a row, where each is one.
fn nodes_of(alloc: Global, row: &Row<'_>) -> Result<Option<Vec<Node>>, AllocError> {
    let mut nodes = Vec::new(alloc);
    for (at, field) in row.fields.iter().enumerate() {
        if field.name == b"node".as_slice() {
            let (word, rest) = split_word(field.value.as_slice());
            match node_of(word, rest, at) {
                Some(node) => nodes.push(node)?,
                None => return Ok(None),
            }
        }
    }
    Ok(Some(nodes))
}

/// Whether a set has these bytes, or all but these.
fn is_set_of(set: ByteSet, members: &[u8], inside: bool) -> bool {
    for byte in 0..=255u8 {
        let listed = members.contains(&byte);
        if set.contains(byte) != (listed == inside) {
            return false;
        }
    }
    true
}

/// Whether a set has the bytes that this field of the row lists, or all but these.
fn is_listed(set: ByteSet, row: &Row<'_>, at: usize, inside: bool) -> bool {
    match row.fields.get(at) {
        Some(field) => is_set_of(set, split_word(field.value.as_slice()).1, inside),
        None => false,
    }
}

/// Whether a pattern is repeated so.
fn is_repeated(least: u8, most: Option<u8>, wanted: (usize, Option<usize>)) -> bool {
    (usize::from(least), most.map(usize::from)) == wanted
}

/// The nodes that follow those of the tree, where these begin with its own.
#[cycle(nodes)]
fn after_tree<'a>(row: &Row<'_>, pattern: &Pattern, nodes: &'a [Node]) -> Option<&'a [Node]> {
    let (first, rest) = nodes.split_first()?;
    match (pattern, *first) {
        (Pattern::Empty, Node::Empty) => Some(rest),
        (Pattern::Set(set), Node::Bytes(at)) if is_listed(*set, row, at, true) => Some(rest),
        (Pattern::Set(set), Node::AllBut(at)) if is_listed(*set, row, at, false) => Some(rest),
        (Pattern::Cat(parts), Node::Series(count)) if parts.items().len() == count => {
            after_trees(row, parts.items(), rest)
        }
        (Pattern::Alt(parts), Node::Choice(count)) if parts.items().len() == count => {
            after_trees(row, parts.items(), rest)
        }
        (Pattern::Star(inner), Node::Star) => after_tree(row, inner, rest),
        (Pattern::Repeat(inner, m, n), Node::Repeat(least, most))
            if is_repeated(*m, *n, (least, most)) => { after_tree(row, inner, rest) }
        _ => None,
    }
}

/// The nodes behind those of these patterns, one after another, where theirs are these.
#[cycle(nodes)]
fn after_trees<'a>(row: &Row<'_>, patterns: &[Pattern], nodes: &'a [Node]) -> Option<&'a [Node]> {
    let mut rest = nodes;
    for pattern in patterns {
        rest = after_tree(row, pattern, rest)?;
    }
    Some(rest)
}

/// Tells whether the tree of a pattern is another than that of the nodes.
pub(crate) fn tree(alloc: Global, row: &Row<'_>) -> Result<Answer, AllocError> {
    let Some(nodes) = nodes_of(alloc, row)? else {
        return Answer::telling(alloc, "nodes that are none\n");
    };
    match pattern_of(alloc, row)? {
        Ok(pattern) => {
            let is_same = after_tree(row, &pattern, nodes.as_slice()).is_some_and(
                |rest| rest.is_empty(),
            );
            Answer::telling(alloc, if is_same { "" } else { "another tree\n" })
        }
        Err(told) => Answer::telling(alloc, told.as_str()),
    }
}
