//! What a Create Bearer Request comes to.

ghost use Rattle.std.specs.Prelude.{◌≡◌, ◌↔◌, IsTrue, IfSome, IfNone};
ghost use Rattle.gtp_machine.specs.Choice.{HasDraws};
ghost use Rattle.gtp_tables.specs.Identity.{HasAll, IsLowestUnused};
ghost use Rattle.gtp_gateway.specs.receive.CreateBearerRequest.{HasFitCause, StandsWith, CanGive, granted_to, cause_in, is_granted, change_for, JudgesCreateBearer};
ghost use Rattle.gtp_machine.specs.Node.{Node};
ghost use Rattle.gtp_gateway.specs.tables.Teids.{IsOneDrawn};
ghost use Rattle.gtp_gateway.specs.Parts.{node_of};
ghost use Rattle.gtp_gateway.specs.GatewayState.{IsSoundState, state_of};

use crate::messages::elements::written_teid;
use crate::parts::Parts;
use crate::receive::create_bearer_request::BearerRequest;
use crate::tables::change::Change;
use crate::tables::teids::OneDrawn;
use gtp_machine::causes;
use gtp_tables::{Bearer, Kind, Session, State, View};
use gtp_values::{Ebi, Teid};

/// What a bearer is made with: its identity, and the TEID that is drawn for it.
#[derive(Clone, Copy)]
pub struct BearerGrant {
    pub identity: Ebi,
    pub drawn: OneDrawn,
}

/// How a Create Bearer Request is answered.
#[derive(Clone, Copy)]
pub enum CreateBearerAnswer {
    /// It is refused, with Cause and Recovery alone.
    Refused { cause: u8 },
    /// There is no identity or no TEID for the bearer.
    NoResources,
    /// The bearer is made.
    Granted(BearerGrant),
}

/// What the request comes to: its answer, and the TEID in the header of that.
#[derive(Clone, Copy)]
pub struct CreateBearerVerdict {
    pub header: Teid,
    pub answer: CreateBearerAnswer,
}

impl CreateBearerAnswer {
    /// The cause of the answer.
    pub fn cause(&self) -> u8
        ensures { result ≡ cause_in self.now }
    {
        match *self {
            CreateBearerAnswer::Refused { cause } => cause,
            CreateBearerAnswer::NoResources => causes::NO_RESOURCES_AVAILABLE,
            CreateBearerAnswer::Granted(_) => causes::REQUEST_ACCEPTED,
        }
    }

    /// Whether a bearer is made.
    pub fn is_granted(&self) -> bool
        ensures { result ≡ is_granted self.now }
    {
        matches!(self, CreateBearerAnswer::Granted(_))
    }

    /// What changes.
    pub fn change(&self, request: &BearerRequest) -> Change
        ensures { result ≡ change_for request.now self.now }
    {
        match *self {
            CreateBearerAnswer::Refused { .. } | CreateBearerAnswer::NoResources => Change::Stays,
            CreateBearerAnswer::Granted(grant) => Change::MakesBearer {
                draws: grant.drawn.draws,
                teid: grant.drawn.teid,
                bearer: granted_bearer(request, grant.identity),
            },
        }
    }
}

/// The bearer that is granted: a dedicated one, active at once.
pub fn granted_bearer(request: &BearerRequest, identity: Ebi) -> Bearer
    ensures { result ≡ granted_to request.now identity }
{
    Bearer {
        remote: Some(request.user.teid()),
        session: request.header,
        identity: Some(identity),
        kind: Kind::Dedicated,
        state: State::Active,
        ended: false,
    }
}

impl Parts {
    /// The lowest identity that no bearer of the session has, and the next TEID, where there are both.
    fn choose(&self, session: Teid, view: &View<'_>) -> Option<BearerGrant>
        requires whole { IsSoundState (state_of self.now) }
        ensures identity { IfSome result (λ g.
            IsLowestUnused view.now.bearers session g.identity) }
        ensures drawn { IfSome result (λ g. IsOneDrawn g.drawn (node_of self.now)) }
        ensures none { IfNone result (HasDraws (node_of self.now) 1
            → HasAll view.now.bearers session) }
    {
        let identity = view.lowest_free_identity(session).ok()?;
        let drawn = self.draw_one()?;
        Some(BearerGrant { identity, drawn })
    }

    /// What a Create Bearer Request comes to where this is found under its TEID, and bearers stand so;
    /// none where its session is not active, and then it is dropped. It changes nothing.
    pub fn judge_create_bearer(
        &self,
        request: &BearerRequest,
        found: Option<Session>,
        view: &View<'_>,
    ) -> Option<CreateBearerVerdict>
        requires whole { IsSoundState (state_of self.now) }
        ensures judged { (node : Node)
            → StandsWith request.now.header found view.now.bearers (node_of self.now) node
            → JudgesCreateBearer request.now node result }
        ensures given { IfSome result (λ v. CanGive found v.answer (node_of self.now)) }
        ensures fit { IfSome result (λ v. HasFitCause v.answer) }
    {
        let Some(session) = found else {
            return Some(CreateBearerVerdict {
                header: Teid(0),
                answer: CreateBearerAnswer::Refused {
                    cause: causes::CONTEXT_NOT_FOUND,
                },
            });
        };
        if !session.is_active() {
            return None;
        }
        let header = written_teid(session.remote);
        if !request.is_alone {
            return Some(CreateBearerVerdict {
                header,
                answer: CreateBearerAnswer::Refused {
                    cause: causes::REQUEST_REJECTED,
                },
            });
        }
        if !session.is_default(request.linked) {
            return Some(CreateBearerVerdict {
                header,
                answer: CreateBearerAnswer::Refused {
                    cause: causes::CONTEXT_NOT_FOUND,
                },
            });
        }
        let Some(grant) = self.choose(request.header, view) else {
            return Some(CreateBearerVerdict {
                header,
                answer: CreateBearerAnswer::NoResources,
            });
        };
        Some(CreateBearerVerdict {
            header,
            answer: CreateBearerAnswer::Granted(grant),
        })
    }
}
