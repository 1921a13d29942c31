//! What a gateway keeps.

ghost use Rattle.std.specs.Prelude.{◌≡◌, IfOk};
ghost use Rattle.gtp_gateway.specs.messages.Spelled.{AreAsked, AreAnswered};

use crate::command::purpose::Purpose;
use crate::config::Config;
use gtp_machine::Role;
use gtp_reliable::{Held, Pending};
use gtp_tables::{Bearers, Draws, Peer, Sessions};
use gtp_values::{Counter, Memory};
use std::alloc::Global;

/// What a gateway keeps. Requests that wait and answers that are held are kept as the octets that
/// were sent.
#[derive(Drop)]
pub struct Parts {
    pub role: Role,
    pub config: Config,
    pub draws: Draws,
    pub peer: Peer,
    pub sessions: Sessions,
    pub bearers: Bearers,
    pub pending: Pending<Purpose>,
    pub held: Held,
    // What is kept of a message are the octets that are sent for it.
    ghost asked: { AreAsked config.config.peer.control pending.waiting },
    ghost answered: { AreAnswered held.pairs },
}

impl Parts {
    ghost use Rattle.gtp_gateway.specs.GatewayState.{state_of, starting};

    /// What a gateway keeps that has just started with this restart counter.
    pub fn start(
        alloc: Global,
        role: Role,
        config: &Config,
        counter: Counter,
    ) -> Result<Parts, Memory>
        ensures { IfOk result (λ g. state_of g ≡ starting role config.now counter.0) }
    {
        let timers = config.timers();
        let sessions = match role {
            Role::Serving => Sessions::new(alloc),
            Role::Packet => { Sessions::with_pools(alloc, &config.pools()).map_err(|_| Memory)? }
        };
        Ok(Parts {
            role,
            config: config.copy(alloc)?,
            draws: Draws::new(counter),
            peer: Peer::new(),
            sessions,
            bearers: Bearers::new(alloc),
            pending: Pending::new(alloc, timers.t3, timers.n3),
            held: Held::new(alloc, timers.hold),
        })
    }
}
