//! The commands of a gateway.

ghost use Rattle.std.specs.Prelude.{◌≡◌, None, IfOk, OnErr};
ghost use Rattle.gtp_machine.specs.Input.{Create_session, Delete_session, Create_bearer, Delete_bearer, Release_session};
ghost use Rattle.gtp_machine.specs.Input.{Mark_end, Send_echo, Send_user};
ghost use Rattle.gtp_gateway.specs.command.Command.{IsCarriedOut, IsRefusedWhere, SendsRequestNext};
ghost use Rattle.gtp_gateway.specs.command.CreateSession.{specification};

use super::Gateway;
use crate::command::create_session::SessionSpec;
use crate::fault::CommandFault;
use crate::sent::Begun;
use gtp_values::{Ebi, Qos, Teid, Tft};
use std::alloc::Global;

impl Gateway {
    /// Sends an Echo Request (TS 29.274 7.1.1).
    pub fn echo(&mut self, alloc: Global) -> Result<Begun, CommandFault>
        // It is a step of the machine, which sends exactly this.
        ensures done { IfOk result (λ begun. IsCarriedOut Send_echo self.old begun self.new) }
        ensures next { IfOk result (λ begun. SendsRequestNext self.old begun self.new) }
        ensures refused { IsRefusedWhere Send_echo self.old result }
        ensures err { OnErr result (self.new ≡ self.old) }
    {
        self.parts.echo(alloc)
    }

    /// Sends a Create Session Request for a new session (TS 29.274 7.2.1). A command of the serving gateway.
    pub fn create_session(
        &mut self,
        alloc: Global,
        spec: &SessionSpec,
    ) -> Result<Begun, CommandFault>
        ensures done { IfOk result (λ begun.
            IsCarriedOut (Create_session (specification spec.now)) self.old begun self.new) }
        ensures next { IfOk result (λ begun. SendsRequestNext self.old begun self.new) }
        ensures refused { IsRefusedWhere (Create_session (specification spec.now)) self.old result }
        ensures err { OnErr result (self.new ≡ self.old) }
    {
        self.parts.create_session(alloc, spec)
    }

    /// Sends a Delete Session Request for an active session (TS 29.274 7.2.9.1). A command of the serving gateway.
    pub fn delete_session(&mut self, alloc: Global, session: Teid) -> Result<Begun, CommandFault>
        ensures done { IfOk result (λ begun.
            IsCarriedOut (Delete_session session) self.old begun self.new) }
        ensures next { IfOk result (λ begun. SendsRequestNext self.old begun self.new) }
        ensures refused { IsRefusedWhere (Delete_session session) self.old result }
        ensures err { OnErr result (self.new ≡ self.old) }
    {
        self.parts.delete_session(alloc, session)
    }

    /// Sends a Create Bearer Request for a new dedicated bearer of an active session (TS 29.274 7.2.3). A command of
    /// the packet gateway.
    pub fn create_bearer(
        &mut self,
        alloc: Global,
        session: Teid,
        tft: &Tft,
        qos: &Qos,
    ) -> Result<Begun, CommandFault>
        ensures done { IfOk result (λ begun.
            IsCarriedOut (Create_bearer session tft.now qos.now) self.old begun self.new) }
        ensures next { IfOk result (λ begun. SendsRequestNext self.old begun self.new) }
        ensures refused { IsRefusedWhere (Create_bearer session tft.now qos.now) self.old result }
        ensures err { OnErr result (self.new ≡ self.old) }
    {
        self.parts.create_bearer(alloc, session, tft, qos)
    }

    /// Sends a Delete Bearer Request for an active dedicated bearer of an active session (TS 29.274 7.2.9.2). A
    /// command of the packet gateway.
    pub fn delete_bearer(
        &mut self,
        alloc: Global,
        session: Teid,
        identity: Ebi,
    ) -> Result<Begun, CommandFault>
        ensures done { IfOk result (λ begun.
            IsCarriedOut (Delete_bearer session identity) self.old begun self.new) }
        ensures next { IfOk result (λ begun. SendsRequestNext self.old begun self.new) }
        ensures refused { IsRefusedWhere (Delete_bearer session identity) self.old result }
        ensures err { OnErr result (self.new ≡ self.old) }
    {
        self.parts.delete_bearer(alloc, session, identity)
    }

    /// Sends a Delete Bearer Request for the default bearer of an active session, which ends the session
    /// (TS 29.274 7.2.9.2). A command of the packet gateway.
    pub fn release_session(&mut self, alloc: Global, session: Teid) -> Result<Begun, CommandFault>
        ensures done { IfOk result (λ begun.
            IsCarriedOut (Release_session session) self.old begun self.new) }
        ensures next { IfOk result (λ begun. SendsRequestNext self.old begun self.new) }
        ensures refused { IsRefusedWhere (Release_session session) self.old result }
        ensures err { OnErr result (self.new ≡ self.old) }
    {
        self.parts.release_session(alloc, session)
    }

    /// Sends an End Marker on a bearer (TS 29.281 7.3.2), once for each bearer. A command of the packet gateway.
    pub fn end_marker(&mut self, alloc: Global, bearer: Teid) -> Result<Begun, CommandFault>
        ensures done { IfOk result (λ begun.
            IsCarriedOut (Mark_end bearer) self.old begun self.new) }
        // No request was sent, so there is no TEID of a context.
        ensures untold { IfOk result (λ begun. begun.teid ≡ None) }
        ensures queues { self.new.queues ≡ self.old.queues }
        ensures refused { IsRefusedWhere (Mark_end bearer) self.old result }
        ensures err { OnErr result (self.new ≡ self.old) }
    {
        self.parts.end_marker(alloc, bearer)
    }

    /// Sends a packet of at most 65,000 octets on a bearer, as a G-PDU (TS 29.281 5.1). The gateway does not change.
    pub fn send_user(
        &self,
        alloc: Global,
        bearer: Teid,
        payload: &[u8],
    ) -> Result<Begun, CommandFault>
        ensures done { IfOk result (λ begun.
            IsCarriedOut (Send_user bearer payload.now) self.now begun self.now) }
        // No request was sent, so there is no TEID of a context.
        ensures untold { IfOk result (λ begun. begun.teid ≡ None) }
        ensures refused { IsRefusedWhere (Send_user bearer payload.now) self.now result }
    {
        self.parts.send_user(alloc, bearer, payload)
    }
}
