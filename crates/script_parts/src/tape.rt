//! How the tape of a script's text is read.
ghost use Rattle.std.specs.Prelude.{◌≡◌, Some, map};
ghost use Rattle.json.specs.Tape.{node_token};
ghost use Rattle.serde_json.specs.Read.{read};
ghost use Rattle.script_parts.specs.Json.{value_read};
ghost use Rattle.script_parts.specs.inside.Fit.{are_fit, level_after};
ghost use Rattle.script_parts.specs.inside.Tree.{GivesTape};

use crate::forms::Unread;
use crate::numbers::is_in_range;
use json::{Error, Node, Scratch, Tape};
use std::alloc::Global;

/// How deep arrays and objects may nest.
const MAX_DEPTH: usize = 127;

/// The tape of bytes in JSON. Texts with escapes stand in `scratch`, all others in the bytes.
#[tactic(auto, using(crate::proofs::Bytes::value_read_none, crate::proofs::InRange::bytes_read))]
pub fn read_tape<'a>(
    alloc: Global,
    bytes: &'a [u8],
    scratch: &'a mut Scratch,
) -> Result<Tape<'a>, Unread>
    ensures { GivesTape result (value_read bytes.now) }
{
    match str::from_utf8(bytes) {
        Ok(text) => read_text(alloc, text, scratch),
        Err(_) => Err(Unread::Wrong),
    }
}

/// The tape of a text in JSON.
#[tactic(auto, using(crate::proofs::InRange::fit_read, crate::proofs::InRange::unfit_read, crate::proofs::InRange::none_read))]
fn read_text<'a>(alloc: Global, text: &'a str, scratch: &'a mut Scratch) -> Result<Tape<'a>, Unread>
    ensures { GivesTape result (read text.now) }
{
    let tape = match Tape::parse(text, scratch, Vec::new(alloc)) {
        Ok(tape) => tape,
        Err(Error::Invalid) => return Err(Unread::Wrong),
        Err(_) => return Err(Unread::Memory),
    };
    if !are_fit(tape.nodes()) {
        return Err(Unread::Wrong);
    }
    Ok(tape)
}

/// Whether nodes nest no deeper than they may, and each number is in range.
#[tactic(auto, unfolding(crate::specs::inside::Fit::are_fit))]
fn are_fit(nodes: &[Node<'_>]) -> bool
    ensures { result ≡ are_fit (Some 0) (map node_token nodes.now) }
{
    let mut level = 0;
    for node in nodes {
        match level_after(level, node) {
            Some(next) => level = next,
            None => return false,
        }
    }
    true
}

/// The level of nesting behind a node, where the node may stand at this one.
#[inline(always)]
fn level_after(level: usize, node: &Node<'_>) -> Option<usize>
    ensures { result ≡ level_after level (node_token node.now) }
{
    match *node {
        Node::Object(_) | Node::Array(_) => if level < MAX_DEPTH {
            Some(level + 1)
        } else {
            None
        },
        Node::EndObject | Node::EndArray => Some(level.saturating_sub(1)),
        Node::Number(text) => if is_in_range(text) { Some(level) } else { None },
        _ => Some(level),
    }
}
