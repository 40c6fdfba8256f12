//! What a text is read as, in a form of its own: each choice and each list of entries has parentheses.
use bidi_cddl::{Body, LoadFault, Node, Occurs, Written, line_and_column, read_rules};
use std::alloc::{AllocError, Global};
use std::test::Fail;

/// `read`, or the line and the column of what is wrong, and what.
pub fn fault_of(alloc: Global, text: &str) -> Result<String, Fail> {
    match read_rules(alloc, text) {
        Ok(_) => Ok(String::from_str(alloc, "read")?),
        Err(LoadFault::NoMemory) => Ok(String::from_str(alloc, "no memory")?),
        Err(LoadFault::Wrong(wrong)) => {
            let (line, column) = line_and_column(text, wrong.at);
            Ok(format!(in alloc; "{line}:{column} {}", wrong.what)?)
        }
    }
}

/// The rules of a text, one behind the other.
pub fn shown(alloc: Global, text: &str) -> Result<String, Fail> {
    let Ok(written) = read_rules(alloc, text) else {
        return fault_of(alloc, text);
    };
    let mut all = String::new(alloc);
    for rule in &written.rules {
        if !all.is_empty() {
            all.push_str("; ")?;
        }
        all.push_str(rule.name)?;
        all.push_str(" = ")?;
        all.push_str(body_shown(alloc, &written, rule.body)?.as_str())?;
    }
    Ok(all)
}

fn body_shown(alloc: Global, written: &Written<'_>, body: Body) -> Result<String, AllocError> {
    match body {
        Body::Type(node) => node_shown(alloc, written, node, 99),
        Body::Group(node) => format!(in alloc; "group {}", node_shown(alloc, written, node, 99)?),
        Body::Either(a_type, group) => format!(in alloc;
            "{} or group {}",
            node_shown(alloc, written, a_type, 99)?,
            node_shown(alloc, written, group, 99)?
        ),
    }
}

// A node, with so many nodes inside one another at most.
#[cycle(show)]
fn node_shown(
    alloc: Global,
    written: &Written<'_>,
    node: usize,
    depth: usize,
) -> Result<String, AllocError> {
    if depth == 0 {
        return String::from_str(alloc, "..");
    }
    match written.nodes.get(node) {
        None => String::from_str(alloc, "no node"),
        Some(node) => parts_shown(alloc, written, node, depth - 1),
    }
}

// A node by its parts.
#[cycle(show)]
fn parts_shown(
    alloc: Global,
    written: &Written<'_>,
    node: &Node<'_>,
    depth: usize,
) -> Result<String, AllocError> {
    match node {
        Node::Text(text) => format!(in alloc; "\"{text}\""),
        Node::Number(text) | Node::Name(text) => String::from_str(alloc, text),
        Node::Range(least, most, false) => format!(in alloc; "{least}..{most}"),
        Node::Range(least, most, true) => format!(in alloc; "{least}...{most}"),
        Node::Bounded(inner, control, number) => {
            let inner = node_shown(alloc, written, *inner, depth)?;
            format!(in alloc; "({inner} {control} {number})")
        }
        Node::Empty => String::from_str(alloc, "()"),
        Node::Map(group) => around(alloc, "{", node_shown(alloc, written, *group, depth)?, "}"),
        Node::Array(group) => around(alloc, "[", node_shown(alloc, written, *group, depth)?, "]"),
        Node::Either(first, second) => pair_shown(alloc, written, *first, " / ", *second, depth),
        Node::Both(first, second) => pair_shown(alloc, written, *first, ", ", *second, depth),
        Node::Choice(first, second) => pair_shown(alloc, written, *first, " // ", *second, depth),
        Node::Member(occurs, key, value) => {
            let value = node_shown(alloc, written, *value, depth)?;
            with_occurs(alloc, *occurs, format!(in alloc; "{key}: {value}")?)
        }
        Node::Further(occurs, value) => {
            let value = node_shown(alloc, written, *value, depth)?;
            with_occurs(alloc, *occurs, around(alloc, "text => ", value, "")?)
        }
        Node::Bare(occurs, inner) => {
            let inner = node_shown(alloc, written, *inner, depth)?;
            with_occurs(alloc, *occurs, inner)
        }
        Node::Inside(occurs, group) => {
            let group = node_shown(alloc, written, *group, depth)?;
            with_occurs(alloc, *occurs, around(alloc, "<", group, ">")?)
        }
    }
}
// Two nodes, with a sign between them.
#[cycle(show)]
fn pair_shown(
    alloc: Global,
    written: &Written<'_>,
    first: usize,
    sign: &str,
    second: usize,
    depth: usize,
) -> Result<String, AllocError> {
    let first = node_shown(alloc, written, first, depth)?;
    let second = node_shown(alloc, written, second, depth)?;
    format!(in alloc; "({first}{sign}{second})")
}

// A text between two others.
fn around(alloc: Global, before: &str, text: String, behind: &str) -> Result<String, AllocError> {
    format!(in alloc; "{before}{text}{behind}")
}

// An entry and how often it may occur.
fn with_occurs(alloc: Global, occurs: Occurs, entry: String) -> Result<String, AllocError> {
    match occurs {
        Occurs::Once => Ok(entry),
        Occurs::Optional => around(alloc, "? ", entry, ""),
        Occurs::AtLeast(least) => format!(in alloc; "{least}* {entry}"),
    }
}
