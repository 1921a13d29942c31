//! The bearer context in which an element at fault lies, or is missing.

ghost use Rattle.std.specs.Prelude.{◌≡◌, ◌<◌, ◌^◌, length};
ghost use Rattle.gtp_ie.specs.View.{element_of};
ghost use Rattle.gtp_lines.specs.All.{holds as spec_holds, context_among as spec_context_among, context_in as spec_context_in, context_alone as spec_context_alone, context_at as spec_context_at, head_at as spec_head_at, fault_context as spec_fault_context};
ghost use Rattle.gtp_lines.specs.reading.Header.{headed_of};

use crate::header::{Header, head_at, pair_at};
use gtp_ie::{ElementView, Elements, IeFault, elements_at};
use gtp_v2::{BEARER_CONTEXT, V2Fault};

/// Whether an element has this place.
fn holds(view: &ElementView, at: usize) -> bool
    ensures { result ≡ spec_holds at (element_of view.now) }
{
    view.at <= at && at - view.at < 4 + view.body.len()
}

/// The number of the bearer context that has this place, from 1.
fn context_among(elements: &Elements, at: usize) -> Option<u64>
    requires { length elements.now < 2 ^ 64 }
    ensures { result ≡ spec_context_among at 0 elements.now }
{
    let mut number = 0u64;
    for view in elements.iter() {
        if view.kind == BEARER_CONTEXT {
            number += 1;
            if holds(&view, at) {
                return Some(number);
            }
        }
    }
    None
}

/// The same among the elements after a header, where these are whole.
fn context_in(header: &Header, at: usize) -> Option<u64>
    ensures { result ≡ spec_context_in at (headed_of header.now) }
{
    match elements_at(header.rest, header.place()) {
        Ok(elements) => context_among(&elements, at),
        Err(_) => None,
    }
}

/// The same in a message, by its place in it.
fn context_alone(octets: &[u8], at: usize) -> Option<u64>
    ensures { result ≡ spec_context_alone at (spec_head_at octets.now) }
{
    match head_at(octets) {
        Some(header) => context_in(&header, at),
        None => None,
    }
}

/// The same in a datagram, of its first message or of its second.
fn context_at(octets: &[u8], at: usize) -> Option<u64>
    ensures { result ≡ spec_context_at octets.now at }
{
    let Some((header, back)) = pair_at(octets) else {
        return context_alone(octets, at);
    };
    match context_in(&header, at) {
        Some(number) => Some(number),
        None => {
            let front = octets.len().saturating_sub(back.len());
            context_alone(back, at.saturating_sub(front))
        }
    }
}

/// The number of the bearer context in which the element at fault lies or is missing, from 1 in its message, where
/// that is one.
#[tactic(auto, unfolding(crate::specs::All::fault_context))]
pub fn fault_context(octets: &[u8], fault: &V2Fault) -> Option<u64>
    ensures { result ≡ spec_fault_context octets.now fault.now }
{
    match fault {
        V2Fault::Element { fault, .. } => match fault {
            IeFault::Truncated { at }
            | IeFault::ShortValue { at, .. }
            | IeFault::BadValue { at, .. } => context_at(octets, *at),
            IeFault::Memory | IeFault::TooLong => None,
        },
        V2Fault::Missing {
            group: Some(at),
            ..
        } => context_at(octets, *at),
        _ => None,
    }
}
