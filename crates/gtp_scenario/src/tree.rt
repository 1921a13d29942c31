//! JSON as a list of tokens, and the values in it.

ghost use Rattle.std.specs.Prelude.{◌≡◌, ◌==◌, ◌<◌, ◌≤◌, true, false, length, slice_index, option_map, map, IsTrue};
ghost use Rattle.json.specs.Tape.{node_token};
ghost use Rattle.serde_json.specs.Find.{as_u64};
ghost use Rattle.serde_json.specs.Read.{number_of, number_from, float_of, read};
ghost use Rattle.gtp_scenario.specs.Steps.{Gives};
ghost use Rattle.gtp_scenario.specs.Scenarios.{most_octets};
ghost use Rattle.gtp_scenario.specs.Trees.{whole_of, view, depth_after, depth_after_all};

use crate::fault::Fault;
use fast_float::Numeral;
use json::{Element, Node, Scratch, Tape};
use std::alloc::Global;
use std::marker::Model;

/// How deep arrays and objects may nest.
const MOST_NESTED: usize = 127;

// ---- values

/// A value, by its place among the tokens of a text.
#[derive(Drop)]
pub struct Tree<'t, 'a> {
    pub(crate) element: Element<'t, 'a>,
}

impl<'t, 'a> Model for Tree<'t, 'a> {
    ghost use Rattle.std.specs.Prelude.{List};
    ghost use Rattle.json.specs.Token.{Token, tokens_code};

    ghost Value = { List Token };

    ghost coded = { tokens_code };

    ghost use Rattle.json.specs.Find.{HasValue};

    ghost view = { λ a. a.element };

    ghost invariant = { λ a. HasValue a.element };
}

impl<'t, 'a> Tree<'t, 'a> {
    /// The value of a whole text.
    pub fn root(tape: &'t Tape<'a>) -> Tree<'t, 'a>
        ensures { result ≡ tape.now }
    {
        Tree {
            element: tape.root(),
        }
    }
}

// ---- numbers

/// What a number is to a scenario.
#[derive(Clone, Copy)]
pub(crate) enum Number {
    /// An integer from 0 to 2^64 - 1.
    Whole(u64),
    /// A negative integer, or a float.
    Other,
}

/// A number that is kept as the float nearest to it; none where it is too large for one.
fn nearest(negative: bool, numeral: &Numeral<'_>) -> Option<Number>
    ensures { option_map whole_of result ≡ option_map as_u64 (float_of negative numeral.now) }
{
    let is_kept = numeral.to_float::<f64>(negative).is_finite();
    is_kept.then_some(Number::Other)
}

/// A number without a sign.
fn unsigned(numeral: &Numeral<'_>) -> Option<Number>
    ensures { option_map whole_of result ≡ option_map as_u64 (number_from false numeral.now) }
{
    match numeral.to_u64() {
        Some(n) => Some(Number::Whole(n)),
        None => nearest(false, numeral),
    }
}

/// A number after its sign. `-0` is a float.
fn negative(numeral: &Numeral<'_>) -> Option<Number>
    ensures { option_map whole_of result ≡ option_map as_u64 (number_from true numeral.now) }
{
    match numeral.to_i64(true) {
        Some(n) if n < 0 => Some(Number::Other),
        _ => nearest(true, numeral),
    }
}

fn is_negative(octets: &[u8]) -> bool
    ensures sign { result ≡ (slice_index octets.now 0 == 45) }
    ensures some { IsTrue result → 0 < length octets.now }
{
    !octets.is_empty() && octets[0] == b'-'
}

/// The number of a text; none where it is too large for a float.
pub(crate) fn number_of(text: &str) -> Option<Number>
    ensures { option_map whole_of result ≡ option_map as_u64 (number_of text.now) }
{
    let octets = text.as_bytes();
    if is_negative(octets) {
        negative(&Numeral::scan(&octets[1..]))
    } else {
        unsigned(&Numeral::scan(octets))
    }
}

// ---- whole texts

/// How many arrays and objects are open after a node. None where they would be too many, and where
/// a number is too large for a float.
fn depth_after(depth: usize, node: &Node<'_>) -> Option<usize>
    ensures { result ≡ depth_after depth (node_token node.now) }
{
    match node {
        Node::Array(_) | Node::Object(_) => (depth < MOST_NESTED).then(|| depth + 1),
        Node::EndArray | Node::EndObject => Some(depth.saturating_sub(1)),
        Node::Number(text) => number_of(text).map(|_| depth),
        _ => Some(depth),
    }
}

/// The number of arrays and objects that are open after all of these nodes; `None` as for one node.
fn depth_after_all(nodes: &[Node<'_>]) -> Option<usize>
    ensures { result ≡ depth_after_all 0 (map node_token nodes.now) }
{
    let mut depth = 0;
    for node in nodes {
        depth = depth_after(depth, node)?;
    }
    Some(depth)
}

/// The tokens of a text, if it is JSON.
pub(crate) fn tape_of<'a>(
    alloc: Global,
    text: &'a str,
    scratch: &'a mut Scratch,
) -> Result<Tape<'a>, Fault>
    requires { length text.now ≤ most_octets }
    ensures { Gives view result (read text.now) }
{
    let tape = Tape::parse(text, scratch, Vec::new(alloc))?;
    match depth_after_all(tape.nodes()) {
        Some(_) => Ok(tape),
        None => Err(Fault::Wrong),
    }
}
