//! The scenarios that tests start from.

use gtp_gateway::SessionSpec;
use gtp_scenario::{Entry, Scenario};
use gtp_world::Event;
use std::alloc::Global;
use std::test::Fail;

/// What stands before the number of addresses.
const HEAD: &str = concat!(
    r#"{"serving":{"control":"10.0.0.2","user":"10.0.0.2","counter":1},"#,
    r#""packet":{"control":"10.0.0.1","user":"10.0.0.1","counter":1,"#,
    r#""apns":["internet"],"pool":"10.1.0.1","count":"#
);

/// A scenario with these events, whose packet gateway has these addresses, from 10.1.0.1 on: how many, and behind the number
/// what else its head has. It holds an answer for so many ticks.
pub(crate) fn scenario_of(
    alloc: Global,
    packet: &str,
    hold: &str,
    events: &str,
) -> Result<String, Fail> {
    let mut text = String::new(alloc);
    for part in [
        HEAD,
        packet,
        r#"},"hold":"#,
        hold,
        r#","events":"#,
        events,
        "}",
    ] {
        text.push_str(part)?;
    }
    Ok(text)
}

/// The session that the first event of a scenario asks for.
pub(crate) fn asked_in(scenario: &Scenario) -> Result<SessionSpec, Fail> {
    match scenario.entries.first() {
        Some(
            Entry {
                event: Event::CreateSession(spec),
                ..
            },
        ) => Ok(*spec),
        _ => Err("no session is asked for".into()),
    }
}
