//! TEIDs for what a gateway makes.

ghost use Rattle.std.specs.Prelude.{IfSome, IfNone};
ghost use Rattle.gtp_machine.specs.Choice.{HasDraws};
ghost use Rattle.gtp_gateway.specs.tables.Teids.{IsOneDrawn, AreTwoDrawn, IsThirdDrawn};
ghost use Rattle.gtp_gateway.specs.Parts.{node_of};
ghost use Rattle.gtp_gateway.specs.GatewayState.{IsSoundState, state_of};

use crate::parts::Parts;
use gtp_tables::Draws;
use gtp_values::Teid;

/// A TEID that is drawn, and the draws after it.
#[derive(Clone, Copy)]
pub struct OneDrawn {
    pub draws: Draws,
    pub teid: Teid,
}

/// Two TEIDs that are drawn one after the other, and the draws after them.
#[derive(Clone, Copy)]
pub struct TwoDrawn {
    pub draws: Draws,
    pub control: Teid,
    pub user: Teid,
}

impl Parts {
    /// The next TEID, where one is left. Nothing changes yet.
    pub fn draw_one(&self) -> Option<OneDrawn>
        requires whole { IsSoundState (state_of self.now) }
        ensures some { IfSome result (λ d. IsOneDrawn d (node_of self.now)) }
        ensures none { IfNone result (HasDraws (node_of self.now) 1 → ⊥) }
    {
        let mut draws = self.draws;
        match draws.draw() {
            Ok(teid) => Some(OneDrawn { draws, teid }),
            Err(_) => None,
        }
    }

    /// The next two TEIDs, where two are left. Nothing changes yet.
    pub fn draw_two(&self) -> Option<TwoDrawn>
        requires whole { IsSoundState (state_of self.now) }
        ensures some { IfSome result (λ d. AreTwoDrawn d (node_of self.now)) }
        ensures none { IfNone result (HasDraws (node_of self.now) 2 → ⊥) }
    {
        let mut draws = self.draws;
        let Ok(control) = draws.draw() else {
            return None;
        };
        let Ok(user) = draws.draw() else {
            return None;
        };
        Some(TwoDrawn {
            draws,
            control,
            user,
        })
    }

    /// One more TEID after two, where one is left. Nothing changes yet.
    pub fn draw_third(&self, two: &TwoDrawn) -> Option<OneDrawn>
        requires { AreTwoDrawn two.now (node_of self.now) }
        ensures some { IfSome result (λ d. IsThirdDrawn two.now d (node_of self.now)) }
        ensures none { IfNone result (HasDraws (node_of self.now) 3 → ⊥) }
    {
        let mut draws = two.draws;
        match draws.draw() {
            Ok(teid) => Some(OneDrawn { draws, teid }),
            Err(_) => None,
        }
    }
}
