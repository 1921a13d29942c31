//! Two gateways in a world: what no report shows. A run is read as a scenario, whose report is data in
//! tests/scenarios or examples/scenarios.

use crate::setting::{asked_in, scenario_of};
use gtp_gateway::Outcome;
use gtp_scenario::{Entry, Scenario, read_scenario};
use gtp_world::{EventOutcome, Memory, Mutual, Teid, World};
use std::alloc::Global;
use std::process::Abort;
use std::test::Fail;

/// Events of two gateways with one address for sessions, and what is seen afterwards.
struct Run {
    /// The packet gateway's addresses, and what else its head has.
    packet: &'static str,
    events: &'static str,
    /// How many contexts were made for datagrams, by their numbers.
    made: &'static [(u64, usize)],
    /// How many packets were handed in.
    handed_in: usize,
    /// How many contexts name each other.
    mutual: usize,
    /// Whether another session is then made, in one call.
    is_exchanged: bool,
}

/// One address.
const ONE: &str = "1";

/// One address, and a bearer for each session at once.
const ONE_AND_BEARER: &str = r#"1,"templates":[{"apn":"internet","tft":"21"}]"#;

/// A request that comes three times, one that is late, and one that is given up; an address that is given again after
/// a restart, and one after an end, for which a request before found none; a request that never comes; and one that comes behind an
/// answer in one datagram, and then alone.
const RUNS: [Run; 7] = [
    Run {
        packet: ONE,
        events: concat!(
            r#"[{"do":"create_session","imsi":"001010123456789","apn":"internet","ebi":5},"#,
            r#"{"do":"deliver","datagram":0},{"do":"deliver","datagram":0},{"do":"deliver","datagram":0},"#,
            r#"{"do":"deliver","datagram":1},{"do":"deliver","datagram":2},"#,
            r#"{"do":"send","node":"serving","teid":"01000002","payload":"616263"},"#,
            r#"{"do":"send","node":"packet","teid":"01000002","payload":"646566"},"#,
            r#"{"do":"create_bearer","teid":"01000001","tft":"21"},{"do":"deliver","datagram":6}]"#
        ),
        made: &[(0, 1), (1, 0), (6, 1)],
        handed_in: 2,
        mutual: 2,
        is_exchanged: false,
    },
    Run {
        packet: ONE,
        events: concat!(
            r#"[{"do":"create_session","imsi":"001010123456789","apn":"internet","ebi":5},"#,
            r#"{"do":"deliver","datagram":0},{"do":"deliver","datagram":1},"#,
            r#"{"do":"create_bearer","teid":"01000001","tft":"21"},"#,
            r#"{"do":"deliver","datagram":2},{"do":"deliver","datagram":3},"#,
            r#"{"do":"tick","node":"serving","times":59},{"do":"deliver","datagram":2},"#,
            r#"{"do":"tick","node":"serving"},{"do":"deliver","datagram":2},{"do":"deliver","datagram":2},"#,
            r#"{"do":"cut","datagram":2,"length":11},{"do":"deliver","datagram":0},"#,
            r#"{"do":"send","node":"serving","teid":"01000004","payload":"78"}]"#
        ),
        made: &[(0, 1), (2, 2)],
        handed_in: 1,
        mutual: 3,
        is_exchanged: false,
    },
    Run {
        packet: ONE,
        events: concat!(
            r#"[{"do":"create_session","imsi":"001010123456789","apn":"internet","ebi":5},"#,
            r#"{"do":"deliver","datagram":0},{"do":"tick","node":"serving","times":12},"#,
            r#"{"do":"deliver","datagram":1}]"#
        ),
        made: &[(0, 1)],
        handed_in: 0,
        mutual: 0,
        is_exchanged: false,
    },
    Run {
        packet: ONE,
        events: concat!(
            r#"[{"do":"create_session","imsi":"001010123456789","apn":"internet","ebi":5},"#,
            r#"{"do":"deliver","datagram":0},{"do":"restart","node":"packet"},{"do":"deliver","datagram":0},"#,
            r#"{"do":"deliver","datagram":1},{"do":"deliver","datagram":2},{"do":"deliver","datagram":1}]"#
        ),
        made: &[(0, 1)],
        handed_in: 0,
        mutual: 0,
        is_exchanged: false,
    },
    Run {
        packet: ONE,
        events: concat!(
            r#"[{"do":"create_session","imsi":"001010123456789","apn":"internet","ebi":5},"#,
            r#"{"do":"deliver","datagram":0},{"do":"deliver","datagram":1},"#,
            r#"{"do":"create_session","imsi":"001010123456789","apn":"internet","ebi":5},"#,
            r#"{"do":"deliver","datagram":2},{"do":"deliver","datagram":3},"#,
            r#"{"do":"delete_session","teid":"01000001"},{"do":"deliver","datagram":4},"#,
            r#"{"do":"deliver","datagram":5},"#,
            r#"{"do":"create_session","imsi":"001010123456789","apn":"internet","ebi":5},"#,
            r#"{"do":"deliver","datagram":6},{"do":"deliver","datagram":7}]"#
        ),
        made: &[(0, 1), (2, 0), (6, 1)],
        handed_in: 0,
        mutual: 2,
        is_exchanged: false,
    },
    Run {
        packet: ONE,
        events: r#"[{"do":"create_session","imsi":"001010123456789","apn":"internet","ebi":5}]"#,
        made: &[(0, 0)],
        handed_in: 0,
        mutual: 0,
        is_exchanged: true,
    },
    Run {
        packet: ONE_AND_BEARER,
        events: concat!(
            r#"[{"do":"create_session","imsi":"001010123456789","apn":"internet","ebi":5},"#,
            r#"{"do":"deliver","datagram":0},{"do":"deliver","datagram":1},"#,
            r#"{"do":"tick","node":"packet","times":3},{"do":"deliver","datagram":3}]"#
        ),
        made: &[(0, 1), (1, 1), (3, 1)],
        handed_in: 0,
        mutual: 2,
        is_exchanged: false,
    },
];

/// Past their ends the views have nothing; so many contexts name each other.
fn nothing_is_past(rt: &impl Abort, world: &World, mutual: usize) {
    assert!(rt; world.agree(mutual).is_none());
    assert!(rt; world.owed(world.accepted().len()).is_none());
    assert!(rt; world.made(world.datagrams().len() as u64).is_none());
}

/// A world has what a run is to leave.
fn has(rt: &impl Abort, world: &World, run: &Run) {
    for (number, count) in run.made {
        assert!(rt;
            world.made(*number) == Some(*count),
            "made for {number} of {}",
            run.events
        );
    }
    assert!(rt;
        world.handed_in().len() == run.handed_in,
        "handed in by {}",
        run.events
    );
    nothing_is_past(rt, world, run.mutual);
}

/// What the events come to that make a session in one call, where another one was asked for before.
const MADE: [EventOutcome; 3] = [
    EventOutcome::CameTo(Outcome::Begun(Some(0x0100_0003))),
    EventOutcome::CameTo(Outcome::Answered(16)),
    EventOutcome::CameTo(Outcome::Opened),
];

/// That session and its default bearer at both gateways.
const MUTUAL: [Mutual; 2] = [
    Mutual::Session {
        serving: Teid(0x0100_0003),
        packet: Teid(0x0100_0001),
    },
    Mutual::Bearer {
        serving: Teid(0x0100_0004),
        packet: Teid(0x0100_0002),
    },
];

/// The one session stands at both gateways, which agree.
fn has_one(rt: &impl Abort, world: &World) {
    let mut listed = world.mutual();
    for (at, pair) in MUTUAL.iter().enumerate() {
        assert!(rt; listed.next() == Some(*pair), "mutual at {at}");
        assert!(rt; world.agree(at) == Some(true), "agree at {at}");
    }
    nothing_is_past(rt, world, MUTUAL.len());
}

/// Another session is made in one call.
fn is_made_in_one_call(
    rt: &impl Abort,
    alloc: Global,
    world: &mut World,
    scenario: &Scenario,
) -> Result<(), Fail> {
    let spec = asked_in(scenario)?;
    let outcomes = world.exchange(alloc, &spec)?;
    assert!(rt; outcomes == MADE, "{outcomes:?}");
    has_one(rt, world);
    Ok(())
}

/// The events of a scenario happen.
fn happen(alloc: Global, world: &mut World, entries: &[Entry]) -> Result<(), Memory> {
    for entry in entries {
        for _ in 0..entry.times {
            world.step(alloc, &entry.event)?;
        }
    }
    Ok(())
}

/// The events of a run leave what they are to leave.
fn runs(
    rt: &impl Abort,
    alloc: Global,
    world: &mut World,
    scenario: &Scenario,
    run: &Run,
) -> Result<(), Fail> {
    happen(alloc, world, scenario.entries.as_slice())?;
    has(rt, world, run);
    if run.is_exchanged {
        is_made_in_one_call(rt, alloc, world, scenario)?;
    }
    Ok(())
}

/// The same, from their start.
fn leaves(rt: &impl Abort, alloc: Global, scenario: &Scenario, run: &Run) -> Result<(), Fail> {
    let mut world = World::start(alloc, &scenario.config)?;
    let ran = runs(rt, alloc, &mut world, scenario, run);
    drop(world);
    ran
}

/// The same, of the text of a scenario.
fn text_leaves(rt: &impl Abort, alloc: Global, text: &str, run: &Run) -> Result<(), Fail> {
    let scenario = read_scenario(alloc, text.as_bytes())?;
    leaves(rt, alloc, &scenario, run)
}

#[test]
fn what_runs_leave(rt: HostRuntime) -> Result<(), Fail> {
    for run in &RUNS {
        let text = scenario_of(rt.alloc(), run.packet, "60", run.events)?;
        text_leaves(&rt, rt.alloc(), text.as_str(), run)?;
    }
    Ok(())
}
