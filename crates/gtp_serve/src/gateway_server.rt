//! One gateway behind lines.

ghost use Rattle.std.specs.Prelude.{None, IfOk};
ghost use Rattle.gtp_serve.specs.Answers.{Does, GatewayStarts, SaysNoGateway, GatewayDoes};
ghost use Rattle.gtp_serve.specs.Asked.{IsAsked};
ghost use Rattle.gtp_serve.specs.Served.{OrStays, IsLineOf, HasAnswer};
ghost use Rattle.gtp_serve.specs.Views.{request_by};

use crate::answering::request_line;
use crate::head::head_in;
use crate::reply::word_line;
use crate::request::{Request, request_in};
use crate::server::Server;
use gtp_gateway::{Gateway, Role};
use gtp_scenario::Fault;
use std::alloc::{AllocError, Global};
use std::marker::Model;

/// A gateway, with its role. Contracts see the gateway.
#[derive(Drop)]
pub struct GatewayServer {
    role: Role,
    gateway: Gateway,
}

impl Model for GatewayServer {
    ghost use Rattle.std.specs.Prelude.{◌≡◌};
    ghost use Rattle.std.specs.Coded.{codes};
    ghost use Rattle.gtp_gateway.specs.GatewayState.{GatewayState};
    ghost use Rattle.gtp_gateway.specs.contracts.gateway.Gateway.{the_row as gateway_row};

    ghost Value = { GatewayState };

    ghost coded = { Prim.hlevel (codes, gateway_row.coded) };

    ghost view = { λ s. s.gateway };

    ghost invariant = { λ s. s.role ≡ s.gateway.role };
}

impl GatewayServer {
    /// Does what is asked, and the line that answers it.
    fn obey(&mut self, alloc: Global, request: &Request) -> Result<Vec<u8>, AllocError>
        requires { IsAsked request.now }
        ensures answered { IfOk result (λ text. IsLineOf
            (OrStays (Does None (request_by request.now))) self.old self.new text.items) }
        ensures done { HasAnswer (OrStays (Does None (request_by request.now))) self.old self.new }
    {
        request_line(alloc, None, self.role, &mut self.gateway, request)
    }
}

impl Server for GatewayServer {
    ghost Starts = { GatewayStarts };

    ghost SaysNone = { SaysNoGateway };

    ghost Does = { GatewayDoes };

    fn start(alloc: Global, line: &[u8]) -> Result<GatewayServer, Fault> {
        let head = head_in(alloc, line)?;
        match Gateway::start(alloc, head.role, &head.config, head.counter) {
            Ok(gateway) => Ok(GatewayServer {
                role: head.role,
                gateway,
            }),
            Err(_) => Err(Fault::Memory),
        }
    }

    fn answer(&mut self, alloc: Global, line: &[u8]) -> Result<Vec<u8>, AllocError> {
        match request_in(alloc, line) {
            Ok(request) => self.obey(alloc, &request),
            Err(Fault::Wrong) => word_line(alloc, None, "bad line"),
            Err(Fault::Memory) => word_line(alloc, None, "no memory"),
        }
    }
}
