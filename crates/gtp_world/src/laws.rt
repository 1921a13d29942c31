//! The laws of worlds: what the clauses of their runs leave open, and the laws of the machine. Their functions do
//! nothing: each contract is a law.

ghost use Rattle.gtp_world.specs.Determined.{EventsLeaveOneWorld};
ghost use Rattle.gtp_world.specs.Last.{LastIsSecond, LastIsWhole};
ghost use Rattle.gtp_world.specs.Record.{WorldRecord};
ghost use Rattle.gtp_world.specs.Repeated.{IsAnsweredAgainAlike};

pub use gtp_machine::laws::{
    a_run_is_possible, acts_once, determined, fair_exchange, foundations, numbers, readings,
    sound_nodes, tunnel_safety,
};

/// What a run leaves is determined by the clause `comes` of `World::run`: two worlds that meet it, for the same setup
/// and events, have one log, octet for octet, and equal nodes and timers. Two things may differ: the octets stored for a
/// held answer, and the stored purpose of a pending request. A report and the verdict of a replay depend on the log and
/// the nodes alone, so they are the same for all such worlds.
pub fn worlds_are_determined()
    // Whatever happens, from whatever setup.
    ensures { EventsLeaveOneWorld }
{}

/// What `World::datagrams` shows of a request that comes again (TS 29.274 7.6). A Create Session Request or a Create
/// Bearer Request is delivered, by itself or as the second message of a datagram, and later delivered again: in the same
/// datagram, or in one that its sender sent again and in which it has the same octets. If the second delivery is not
/// late, and the receiver was not restarted between the two, then all that is sent at both deliveries has the same
/// octets.
pub fn repeats_are_answered_alike()
    // At each time in a run.
    ensures { (first : WorldRecord) → IsAnsweredAgainAlike first }
{}

/// Which octets of a delivered datagram count as a request: those of its last message (TS 29.274 5.5.1). What is late, and
/// what was made for a request, goes by these octets.
pub fn last_messages()
    // Of two messages they begin where `gtp_gateway::second_at` answers.
    ensures second { LastIsSecond }

    // Of one message they are all octets.
    ensures alone { LastIsWhole }
{}
