//! The bodies that are measured, as JSON.
use std::alloc::{AllocError, Global};

// How deep operators are nested, and how deep `if`s are.
const DEEP: u32 = 30;

/// A body over one record, key 0.
#[derive(Clone, Copy)]
pub(crate) enum Shape {
    /// A name, a number of copies, and the number of nodes and the text of the statement that is copied.
    Same(&'static str, u32, u32, &'static str),
    /// `copies` copies of a statement in which operators or `if`s are nested.
    Nested {
        name: &'static str,
        copies: u32,
        first: &'static str,
        /// The text that opens each of them.
        opening: &'static str,
        /// The text inside the innermost one.
        inner: &'static str,
        /// The text that closes each of them.
        closing: &'static str,
        last: &'static str,
    },
    /// This many nodes, an even number from 6: differences of a greater and a lesser number.
    Mixed(u32),
}

impl Shape {
    pub(crate) fn name(self) -> &'static str {
        match self {
            Shape::Same(name, ..) | Shape::Nested { name, .. } => name,
            Shape::Mixed(_) => "mixed",
        }
    }

    /// How many statements and expressions run.
    pub(crate) fn nodes(self) -> u32 {
        match self {
            Shape::Same(_, copies, nodes, _) => copies.saturating_mul(nodes),
            Shape::Nested { copies, .. } => copies.saturating_mul(2 * DEEP + 2),
            Shape::Mixed(nodes) => nodes,
        }
    }

    /// Adds its statements to a text.
    pub(crate) fn push(self, alloc: Global, text: &mut String) -> Result<(), AllocError> {
        match self {
            Shape::Same(_, copies, _, statement) => push_copies(text, copies, statement),
            Shape::Nested {
                copies,
                first,
                opening,
                inner,
                closing,
                last,
                ..
            } => {
                let mut statement = String::from_str(alloc, first)?;
                push_times(&mut statement, DEEP, opening)?;
                statement.push_str(inner)?;
                push_times(&mut statement, DEEP, closing)?;
                statement.push_str(last)?;
                push_copies(text, copies, statement.as_str())
            }
            Shape::Mixed(nodes) => push_mixed(text, nodes),
        }
    }
}

// Adds `copies` copies of a statement, at least 1.
fn push_copies(text: &mut String, copies: u32, statement: &str) -> Result<(), AllocError> {
    text.push_str(statement)?;
    for _ in 1..copies {
        text.push_str(",")?;
        text.push_str(statement)?;
    }
    Ok(())
}

// A difference is the greater of local 0 and 1000, minus the lesser of local 0 and 7: 7 nodes.
fn push_mixed(text: &mut String, nodes: u32) -> Result<(), AllocError> {
    let between = nodes.saturating_sub(6);
    text.push_str(r#"["let",0,["key",0]],"#)?;
    push_times(
        text,
        between / 8,
        r#"["let",0,["sub",["max",["local",0],1000],["min",["local",0],7]]],"#,
    )?;
    push_times(text, between % 8 / 2, r#"["let",1,["local",0]],"#)?;
    text.push_str(r#"["set",0,["local",0]],["reply",["local",0]]"#)
}

// Adds a piece `times` times.
fn push_times(text: &mut String, times: u32, piece: &str) -> Result<(), AllocError> {
    for _ in 0..times {
        text.push_str(piece)?;
    }
    Ok(())
}
