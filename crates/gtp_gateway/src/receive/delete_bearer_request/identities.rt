//! The list of identities of a Delete Bearer Request, and the bearers that it names.

ghost use Rattle.std.specs.Prelude.{◌≡◌, ◌<◌, ◌↔◌, map, length, IsTrue, IfOk};
ghost use Rattle.gtp_v2.specs.DeleteBearerRequest.{delete_bearer_request};
ghost use Rattle.gtp_machine.specs.Serving.{delete_bearer_cause};
ghost use Rattle.std.specs.List.{list_all, list_any};
ghost use Rattle.gtp_gateway.specs.receive.DeleteBearerRequest.{number_in, identities_of, goes_for, is_found, was_named, removed_by, context_by};

use crate::messages::elements::plain_cause;
use gtp_machine::causes;
use gtp_v2::{EbiValue, MessageView, RemovalResponseContext, Values};
use gtp_values::{Memory, Teid};
use std::alloc::Global;

/// The most identities that a request may have in its list: those that bearers have, 5 to 15.
const MOST_IDENTITIES: usize = 11;

/// An identity in the list of a request, and the session's dedicated bearer that goes for it.
#[derive(Clone, Copy)]
pub struct NamedBearer {
    pub identity: EbiValue,
    /// The bearer's own TEID; none where no bearer has the identity, or it goes for an earlier one.
    pub teid: Option<Teid>,
}

/// The identities in the list of a Delete Bearer Request.
pub fn identities_in(alloc: Global, view: &MessageView<'_>) -> Result<Vec<EbiValue>, Memory>
    requires { view.now.message.kind ≡ delete_bearer_request.kind }
    ensures { IfOk result (λ identities. map number_in identities.items
        ≡ identities_of view.now.message) }
{
    let mut identities = Vec::new(alloc);
    for identity in view.values::<EbiValue>(1) {
        identities.push(identity)?;
    }
    Ok(identities)
}

/// Whether these are more identities than bearers have.
fn are_too_many(mut identities: Values<'_, EbiValue>) -> bool
    ensures { IsTrue result ↔ (11 < length identities.entry) }
{
    identities.nth(MOST_IDENTITIES).is_some()
}

/// Whether the list of a Delete Bearer Request has more identities than bearers have.
pub fn has_too_many(view: &MessageView<'_>) -> bool
    ensures { view.now.message.kind ≡ delete_bearer_request.kind →
        (IsTrue result ↔ (11 < length (identities_of view.now.message))) }
{
    are_too_many(view.values(1))
}

impl NamedBearer {
    /// Whether this bearer goes.
    fn is_for(&self, teid: Teid) -> bool
        ensures { result ≡ goes_for teid self.now }
    {
        match self.teid {
            None => false,
            Some(named) => teid == named,
        }
    }

    /// Its bearer context in the answer: whether the bearer goes, or there is none.
    pub fn context(&self) -> RemovalResponseContext
        ensures { result ≡ context_by self.now }
    {
        let cause = match self.teid {
            None => causes::CONTEXT_NOT_FOUND,
            Some(_) => causes::REQUEST_ACCEPTED,
        };
        RemovalResponseContext {
            ebi: self.identity,
            cause: plain_cause(cause),
        }
    }
}

/// Whether the bearer goes for one of these.
pub fn is_named(named: &[NamedBearer], teid: Teid) -> bool
    ensures { result ≡ was_named teid named.now }
{
    named.iter().any(|n| n.is_for(teid))
}

/// The bearer contexts of the answer.
pub fn contexts_of(
    alloc: Global,
    named: &[NamedBearer],
) -> Result<Vec<RemovalResponseContext>, Memory>
    ensures { IfOk result (λ contexts. contexts.items ≡ map context_by named.now) }
{
    let contexts = named.iter().map(NamedBearer::context).collect(alloc)?;
    Ok(contexts)
}

/// Whether a bearer goes for each identity.
fn are_all_found(named: &[NamedBearer]) -> bool
    ensures { result ≡ list_all is_found named.now }
{
    named.iter().all(|n| n.teid.is_some())
}

/// Whether a bearer goes for some identity.
fn is_any_found(named: &[NamedBearer]) -> bool
    ensures { result ≡ list_any is_found named.now }
{
    named.iter().any(|n| n.teid.is_some())
}

/// The cause of the answer: all bearers go, some do, or none does.
pub fn cause_of_all(named: &[NamedBearer]) -> u8
    ensures { result ≡ delete_bearer_cause (map removed_by named.now) }
{
    if are_all_found(named) {
        causes::REQUEST_ACCEPTED
    } else if is_any_found(named) {
        causes::REQUEST_ACCEPTED_PARTIALLY
    } else {
        causes::CONTEXT_NOT_FOUND
    }
}
