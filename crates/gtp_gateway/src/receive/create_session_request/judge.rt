//! What a Create Session Request comes to.

ghost use Rattle.std.specs.Prelude.{◌≡◌, ◌↔◌, IsTrue};
ghost use Rattle.gtp_gateway.specs.receive.CreateSessionRequest.{refused_with, JudgesAdded, JudgesRoom, JudgesCreateSession, CanGrant};
ghost use Rattle.gtp_machine.specs.Choice.{asked_by, IsServed};
ghost use Rattle.gtp_gateway.specs.Parts.{node_of};
ghost use Rattle.gtp_gateway.specs.GatewayState.{IsSoundState, state_of};

use crate::config::access_points::Template;
use crate::messages::elements::{fault_cause, plain_cause};
use crate::parts::Parts;
use crate::receive::create_session_request::read::SessionRequest;
use crate::receive::restart_counter::Heard;
use crate::tables::teids::{OneDrawn, TwoDrawn};
use gtp_ie::kinds;
use gtp_machine::causes;
use gtp_tables::Asked;
use gtp_v2::PdnType;
use gtp_values::{Addr, Apn, Below, Cause, Ebi, Seq};

/// What a Create Session Request comes to.
#[derive(Clone, Copy)]
pub enum CreateSessionVerdict {
    /// It is refused with this cause.
    Refused(Cause),
    Granted(SessionGrant),
    /// It is granted, and the bearer of the access point's template is begun with it.
    GrantedWith {
        grant: SessionGrant,
        added: AddedBearer,
    },
}

/// A session that is granted: what is drawn and chosen for it.
#[derive(Clone, Copy)]
pub struct SessionGrant {
    pub drawn: TwoDrawn,
    pub address: Addr,
    /// The identity of the default bearer.
    pub identity: Ebi,
}

/// The bearer of a template: what is drawn for it, the number of its request, and the template.
#[derive(Clone, Copy)]
pub struct AddedBearer {
    pub drawn: OneDrawn,
    pub seq: Seq,
    pub template: Template,
}

/// Refused with a cause that names no element.
pub fn refused(cause: u8) -> CreateSessionVerdict
    ensures { result ≡ refused_with cause }
{
    CreateSessionVerdict::Refused(plain_cause(cause))
}

/// Which versions of an address a PDN type (TS 29.274 8.34) asks for.
fn asked_by(pdn: PdnType) -> Asked
    ensures { result ≡ asked_by pdn.0 }
{
    match pdn.0.number() {
        1 => Asked {
            v4: true,
            v6: false,
        },
        2 => Asked {
            v4: false,
            v6: true,
        },
        3 => Asked { v4: true, v6: true },
        _ => Asked {
            v4: false,
            v6: false,
        },
    }
}

impl Parts {
    /// Whether sessions of this PDN type are served: those of IPv6 alone where there are addresses for
    /// them.
    fn serves_type(&self, pdn: PdnType) -> bool
        ensures { IsTrue result ↔ IsServed (node_of self.now).config pdn.0 }
    {
        match pdn.0.number() {
            1 | 3 => true,
            2 => self.config.pools().v6.count() > 0,
            _ => false,
        }
    }

    /// Whether the bearer of the access point's template is begun with a session, at a gateway that has
    /// heard this counter: where there is a template, one more TEID can be drawn, and fewer than 256
    /// requests wait. Nothing changes.
    fn judge_added(
        &self,
        access_point: &Apn,
        grant: SessionGrant,
        heard: Heard,
    ) -> CreateSessionVerdict
        requires { CanGrant grant (node_of self.now) }
        ensures { JudgesAdded access_point.now grant heard (state_of self.now) result }
    {
        let Some(template) = self.config.template_for(access_point) else {
            return CreateSessionVerdict::Granted(grant);
        };
        let Some(drawn) = self.draw_third(&grant.drawn) else {
            return CreateSessionVerdict::Granted(grant);
        };
        let Some(seq) = self.number_after(heard) else {
            return CreateSessionVerdict::Granted(grant);
        };
        CreateSessionVerdict::GrantedWith {
            grant,
            added: AddedBearer {
                drawn,
                seq,
                template,
            },
        }
    }

    /// Whether there is room for a session with this identity and an address of this PDN type, at a
    /// gateway that has heard this counter. Nothing changes.
    fn judge_room(
        &self,
        identity: Ebi,
        pdn: PdnType,
        access_point: &Apn,
        heard: Heard,
    ) -> CreateSessionVerdict
        requires whole { IsSoundState (state_of self.now) }
        ensures { JudgesRoom identity pdn.0 access_point.now heard (state_of self.now) result }
    {
        let view = self.view_after(heard);
        let Some(drawn) = self.draw_two() else {
            return refused(causes::NO_RESOURCES_AVAILABLE);
        };
        if view.is_full() {
            return refused(causes::NO_RESOURCES_AVAILABLE);
        }
        match view.lowest_free_address(&self.config.pools(), asked_by(pdn)) {
            Ok(address) => {
                let grant = SessionGrant {
                    drawn,
                    address,
                    identity,
                };
                self.judge_added(access_point, grant, heard)
            }
            Err(_) => refused(causes::ALL_DYNAMIC_ADDRESSES_ARE_OCCUPIED),
        }
    }

    /// What a Create Session Request comes to, at a gateway that has heard this counter. Nothing
    /// changes.
    pub fn judge_create_session(
        &self,
        request: &SessionRequest,
        heard: Heard,
    ) -> CreateSessionVerdict
        requires whole { IsSoundState (state_of self.now) }
        ensures { JudgesCreateSession request.now heard (state_of self.now) result }
    {
        if !request.default.is_alone {
            return refused(causes::REQUEST_REJECTED);
        }
        let Ok(identity) = Ebi::try_new(request.default.identity.number()) else {
            let cause = fault_cause(causes::MANDATORY_IE_INCORRECT, kinds::EBI, Below::new(0));
            return CreateSessionVerdict::Refused(cause);
        };
        let Some(access_point) = self.config.access_point_for(&request.access_point) else {
            return refused(causes::MISSING_OR_UNKNOWN_APN);
        };
        if !self.serves_type(request.pdn) {
            return refused(causes::PREFERRED_PDN_TYPE_NOT_SUPPORTED);
        }
        self.judge_room(identity, request.pdn, &access_point, heard)
    }
}
