//! One gateway, and what no conversation of tests/conversations says: the restart counter that a datagram told and
//! whether a context was made for it, which no line shows; and all TEIDs of a start, which take 16 million lines.

use crate::setting::{asked_in, scenario_of};
use gtp_codec_tests::datagrams::{BEARER_REQUEST, SESSION_REQUEST, SESSION_RESPONSE};
use gtp_gateway::*;
use gtp_scenario::{Scenario, read_scenario};
use std::alloc::Global;
use std::process::Abort;
use std::test::Fail;

/// Where the peer's datagrams come from.
const PEER: Endpoint = Endpoint {
    ip: Ip::V4([10, 0, 0, 2]),
    port: 40_000,
};

/// The outcome of a message of the peer, if there was memory.
fn outcome_of(alloc: Global, gateway: &mut Gateway, octets: &[u8]) -> Option<Outcome> {
    let step = gateway.receive(alloc, PEER, Plane::Control, octets).ok()?;
    Some(step.report.outcome)
}

/// The digits of what is sent, if something is.
fn digits_of(alloc: Global, sent: &Option<Sent>) -> Result<String, Memory> {
    match sent {
        Some(sent) => Ok(hex::encode(alloc, sent.octets.as_slice())?),
        None => Ok(String::new(alloc)),
    }
}

/// A message of the peer comes: what is reported, and the digits of what is sent for it.
fn comes(alloc: Global, gateway: &mut Gateway, octets: &[u8]) -> Result<(Report, String), Memory> {
    let step = gateway.receive(alloc, PEER, Plane::Control, octets)?;
    let report = step.report;
    let sent = digits_of(alloc, &step.out)?;
    Ok((report, sent))
}

/// The same, of a message with these digits.
fn comes_as(alloc: Global, gateway: &mut Gateway, digits: &str) -> Result<(Report, String), Fail> {
    let octets = hex::decode(alloc, digits)?;
    Ok(comes(alloc, gateway, octets.as_slice())?)
}

/// A message, the restart counter that it told, and whether a context was made for it.
type Telling = (&'static str, Option<Counter>, bool);

/// A request that is repeated or faulty tells nothing.
const TOLD_TO_PACKET: [Telling; 3] = [
    (SESSION_REQUEST, Some(Counter(1)), true),
    (SESSION_REQUEST, None, false),
    ("4820000d00000000000009000300010007", None, false),
];

/// A request for a bearer has no counter. An earlier counter is told, too.
const TOLD_TO_SERVING: [Telling; 4] = [
    (SESSION_RESPONSE, Some(Counter(1)), false),
    (BEARER_REQUEST, None, true),
    (BEARER_REQUEST, None, false),
    ("40010009000005000300010000", Some(Counter(0)), false),
];

/// Messages tell this.
fn tell(
    rt: &impl Abort,
    alloc: Global,
    gateway: &mut Gateway,
    tellings: &[Telling],
) -> Result<(), Fail> {
    for (digits, heard, made) in tellings {
        let (report, _) = comes_as(alloc, gateway, digits)?;
        assert!(rt; report.heard == *heard && report.made == *made, "{digits}");
    }
    Ok(())
}

/// A message, its outcome, and its answer.
type Answering = (&'static str, Outcome, &'static str);

/// The one TEID that is left is enough for one dedicated bearer, but not for two.
const ONE_IS_LEFT: [Answering; 2] = [
    (
        BEARER_REQUEST,
        Outcome::Answered(16),
        concat!(
            "4860003c0100000100000000",
            "0200020010005d0025004900010006020002001000",
            "570009028401ffffff0a0000015700090385010000030a000002",
            "0300010001"
        ),
    ),
    (
        concat!(
            "485f004a0100000100000100",
            "49000100055d00390049000100005400010021",
            "5700090185010000040a000002",
            "500016002009",
            "0000000000000000000000000000000000000000",
            "5e00040001000004"
        ),
        Outcome::Answered(73),
        concat!(
            "4860002f0100000100000100",
            "0200020049005d0018004900010000020002004900",
            "5700090385010000040a0000020300010001"
        ),
    ),
];

/// The one TEID that is left is not enough for a session.
const ONE_IS_LEFT_TO_PACKET: [Answering; 1] = [(
    concat!(
        "4820008e000000007fffff00",
        "0100080000010121436587f9",
        "5200010006",
        "5300030000f110",
        "57000900860100000b0a000001",
        "4700090008696e7465726e6574",
        "8000010000",
        "6300010001",
        "4f0005000100000000",
        "48000800000003e8000003e8",
        "5d002c00",
        "4900010005",
        "500016002009",
        "0000000000000000000000000000000000000000",
        "57000902840100000c0a000001",
        "0300010001"
    ),
    Outcome::Answered(73),
    "482100130100000b7fffff000200020049000300010001",
)];

/// Messages are answered so.
fn are_answered(
    rt: &impl Abort,
    alloc: Global,
    gateway: &mut Gateway,
    answerings: &[Answering],
) -> Result<(), Fail> {
    for (digits, outcome, answer) in answerings {
        let (report, sent) = comes_as(alloc, gateway, digits)?;
        assert!(rt;
            report.outcome == *outcome && sent.as_str() == *answer,
            "{sent}"
        );
    }
    Ok(())
}

/// The TEID of the session that was made or asked for by the request of this number, from 0. Before each session, so
/// many drew two TEIDs.
fn teid_of(number: u32) -> u32 {
    0x0100_0001u32.wrapping_add(number).wrapping_add(number)
}

/// Puts a TEID and a number into the header of a message.
fn name(message: &mut [u8], teid: u32, number: u32) {
    let [h, i, j, k] = teid.to_be_bytes();
    let [_, a, b, c] = number.to_be_bytes();
    if let Some(place) = message.get_mut(4..11) {
        place.copy_from_slice(&[h, i, j, k, a, b, c]);
    }
}

/// A Create Session Response: the peer has no resources.
const REFUSAL: [u8; 23] = [
    0x48, 33, 0, 19, 0, 0, 0, 0, 0, 0, 0, 0, 2, 0, 2, 0, 73, 0, 3, 0, 1, 0, 1,
];

/// A Delete Session Request.
const DELETION: [u8; 17] = [0x48, 36, 0, 13, 0, 0, 0, 0, 0, 0, 0, 0, 73, 0, 1, 0, 5];

/// A session is asked for, and its request, which has this number, is refused: what the answer comes to.
fn refused(
    alloc: Global,
    serving: &mut Gateway,
    spec: &SessionSpec,
    number: u32,
) -> Option<Outcome> {
    serving.create_session(alloc, spec).ok()?;
    let mut refusal = REFUSAL;
    name(&mut refusal, teid_of(number), number);
    outcome_of(alloc, serving, &refusal)
}

/// Why no session is asked for.
fn why_not(alloc: Global, serving: &mut Gateway, spec: &SessionSpec) -> Option<Refusal> {
    match serving.create_session(alloc, spec) {
        Err(CommandFault::Refused(why)) => Some(why),
        _ => None,
    }
}

/// The digits of an Echo Request that is sent.
fn echo(alloc: Global, gateway: &mut Gateway) -> Result<String, Fail> {
    match gateway.echo(alloc) {
        Ok(begun) => Ok(hex::encode(alloc, begun.out.octets.as_slice())?),
        Err(_) => Err("no Echo Request".into()),
    }
}

/// A session draws two TEIDs, and a start has 16,777,215. One is left after the first session and 8,388,606 more.
fn draws_all(rt: &impl Abort, alloc: Global, serving: &mut Gateway, spec: &SessionSpec) {
    for number in 1..8_388_607 {
        let outcome = refused(alloc, serving, spec, number);
        assert!(rt; outcome == Some(Outcome::Rejected(73)), "session {number}");
    }
    let why = why_not(alloc, serving, spec);
    assert!(rt; why == Some(Refusal::TeidsUsed), "{why:?}");
}

/// 8,388,607 requests used every sequence number but the highest; the next has it, and the one after has 0.
const ECHOES: [&str; 2] = ["400100097fffff000300010001", "40010009000000000300010001"];

/// A serving gateway that has asked for one session draws all TEIDs.
fn all_of_serving(
    rt: &impl Abort,
    alloc: Global,
    serving: &mut Gateway,
    spec: &SessionSpec,
) -> Result<(), Fail> {
    outcome_of(
        alloc,
        serving,
        hex::decode(alloc, SESSION_RESPONSE)?.as_slice(),
    );
    draws_all(rt, alloc, serving, spec);
    are_answered(rt, alloc, serving, &ONE_IS_LEFT)?;
    for digits in ECHOES {
        let sent = echo(alloc, serving)?;
        assert!(rt; sent.as_str() == digits, "{sent}");
    }
    has(rt, serving, 1, 2);
    Ok(())
}

/// Makes a session by the request with this number, and deletes it: whether both are done. After the first and then each
/// thousandth a tick forgets the held answers, of which there can be 4,096.
fn make_and_delete(alloc: Global, packet: &mut Gateway, request: &mut [u8], number: u32) -> bool {
    name(request, 0, number);
    let made = outcome_of(alloc, packet, request);
    let mut deletion = DELETION;
    name(&mut deletion, teid_of(number), number);
    let deleted = outcome_of(alloc, packet, &deletion);
    let is_in_time = number % 1000 != 0 || packet.tick(alloc).is_ok();
    made == Some(Outcome::Answered(16)) && deleted == Some(Outcome::Answered(16)) && is_in_time
}

/// A gateway has so many sessions and bearers.
fn has(rt: &impl Abort, gateway: &Gateway, sessions: usize, bearers: usize) {
    let session_count = gateway
        .sessions()
        .fold(0usize, |count, _| count.saturating_add(1));
    let bearer_count = gateway
        .bearers()
        .fold(0usize, |count, _| count.saturating_add(1));
    assert!(rt; session_count == sessions && bearer_count == bearers);
}

/// 8,388,607 sessions are made and deleted by a packet gateway, and then one TEID is left.
fn all_of_packet(rt: &impl Abort, alloc: Global, packet: &mut Gateway) -> Result<(), Fail> {
    let mut request = hex::decode(alloc, SESSION_REQUEST)?;
    for number in 0..8_388_607 {
        let is_done = make_and_delete(alloc, packet, request.as_mut_slice(), number);
        assert!(rt; is_done, "session {number}");
    }
    are_answered(rt, alloc, packet, &ONE_IS_LEFT_TO_PACKET)?;
    has(rt, packet, 0, 0);
    Ok(())
}

/// What is tried with a gateway that has just started.
#[derive(Clone, Copy)]
enum Trial {
    ToldToPacket,
    ToldToServing,
    AllOfPacket,
    AllOfServing,
}

impl Trial {
    fn role(self) -> Role {
        match self {
            Trial::ToldToPacket | Trial::AllOfPacket => Role::Packet,
            Trial::ToldToServing | Trial::AllOfServing => Role::Serving,
        }
    }

    /// Tries it. A serving gateway has asked for a session.
    fn passes(
        self,
        rt: &impl Abort,
        alloc: Global,
        gateway: &mut Gateway,
        spec: &SessionSpec,
    ) -> Result<(), Fail> {
        match self {
            Trial::ToldToPacket => tell(rt, alloc, gateway, &TOLD_TO_PACKET),
            Trial::ToldToServing => tell(rt, alloc, gateway, &TOLD_TO_SERVING),
            Trial::AllOfPacket => all_of_packet(rt, alloc, gateway),
            Trial::AllOfServing => all_of_serving(rt, alloc, gateway, spec),
        }
    }
}

/// A trial with a gateway of this scenario.
fn passes(rt: &impl Abort, alloc: Global, scenario: &Scenario, trial: Trial) -> Result<(), Fail> {
    let spec = asked_in(scenario)?;
    let config = scenario.config.packet();
    let mut gateway = Gateway::start(alloc, trial.role(), config, Counter(1))?;
    let is_asked = why_not(alloc, &mut gateway, &spec).is_none();
    let passed = trial.passes(rt, alloc, &mut gateway, &spec);
    drop(gateway);
    assert!(rt; is_asked == matches!(trial.role(), Role::Serving));
    passed
}

/// A trial with a gateway that holds an answer for so many ticks.
fn trial_passes(rt: &impl Abort, alloc: Global, hold: &str, trial: Trial) -> Result<(), Fail> {
    let asked = r#"[{"do":"create_session","imsi":"001010123456789","apn":"internet","ebi":5}]"#;
    let text = scenario_of(alloc, "10", hold, asked)?;
    let scenario = read_scenario(alloc, text.as_bytes())?;
    passes(rt, alloc, &scenario, trial)
}

#[test]
fn what_is_told_of_datagrams(rt: HostRuntime) -> Result<(), Fail> {
    for trial in [Trial::ToldToPacket, Trial::ToldToServing] {
        trial_passes(&rt, rt.alloc(), "60", trial)?;
    }
    Ok(())
}

#[test]
fn all_teids_are_drawn_at_the_serving_gateway(rt: HostRuntime) -> Result<(), Fail> {
    trial_passes(&rt, rt.alloc(), "60", Trial::AllOfServing)
}

/// Answers are held for one tick, so that there is room for the next ones.
#[test]
fn all_teids_are_drawn_at_the_packet_gateway(rt: HostRuntime) -> Result<(), Fail> {
    trial_passes(&rt, rt.alloc(), "1", Trial::AllOfPacket)
}
