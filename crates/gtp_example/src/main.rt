//! The libraries by example: a request is read in place, an answer is encoded, and a packet gateway takes part in one
//! exchange. README shows parts of this file.
#![tactic(auto)]

use gtp::control::kinds::CREATE_SESSION_REQUEST;
use gtp::control::{Body, EchoResponse, Imsi, Message, Recovery, encode, view};
use gtp::gateway::{
    Addresses, Apn, Config, Counter, Endpoint, Gateway, Ip, Plane, Pool, Role, Seq, Timers,
};
use std::alloc::Global;

/// A Create Session Request for the subscriber 001010123456789 and the access point internet, as
/// examples/datagrams/control/create-session-request.hex has it.
const REQUEST: &str = concat!(
    "4820008e00000000000000000100080000010121436587f952000100065300030000f110",
    "5700090086010000010a0000014700090008696e7465726e65748000010000630001",
    "00014f000500010000000048000800000003e8000003e85d002c0049000100055000",
    "160020090000000000000000000000000000000000000000570009028401000002",
    "0a0000010300010001",
);

/// The addresses of the packet gateway.
const OWN: Addresses = Addresses {
    control: Ip::V4([10, 0, 0, 2]),
    user: Ip::V4([10, 0, 0, 2]),
};

/// Those of its peer, the serving gateway.
const PEER: Addresses = Addresses {
    control: Ip::V4([10, 0, 0, 1]),
    user: Ip::V4([10, 0, 0, 1]),
};

/// The first IPv6 address of the packet gateway, 2001:db8::1.
const FIRST: [u8; 16] = [0x20, 1, 0xd, 0xb8, 0, 0, 0, 0, 0, 0, 0, 0, 0, 0, 0, 1];

/// The subscriber of a Create Session Request; nothing if the datagram holds another message.
fn subscriber(octets: &[u8]) -> anyhow::Result<Option<Imsi>> {
    let datagram = view(octets)?; // allocates nothing; an error is the first fault
    let message = datagram.message();
    if message.kind() != CREATE_SESSION_REQUEST {
        return Ok(None);
    }
    Ok(Some(message.needed::<Imsi>(0))) // no Option: it is proved that each such message has one
}

/// An Echo Response with this sequence number, from a gateway with this restart counter.
fn echo_response(alloc: Global, seq: Seq, counter: u8) -> anyhow::Result<Vec<u8>> {
    let recovery = Recovery(Counter(counter));
    let message = Message {
        teid: None,
        seq,
        priority: None,
        body: Body::EchoResponse(EchoResponse { recovery }),
    };
    Ok(encode(alloc, &message)?)
}

/// How a packet gateway is set up: for one access point and ten addresses of each IP version.
fn settings(alloc: Global) -> anyhow::Result<Config> {
    let access_points = vec![in alloc; Apn::from_text("internet")?]?;
    let pool = Pool::try_new(0x0a01_0001, 10)?; // 10.1.0.1 and the nine after it
    let config = Config::try_new(OWN, PEER, access_points, pool, Timers::default())?;
    // FIRST, and its last eight octets under each of the nine prefixes after it
    Ok(config.with_pool6(FIRST, 10)?)
}

/// The sessions of a gateway, each with its address.
fn print_sessions(rt: &impl Print, gateway: &Gateway) -> anyhow::Result<()> {
    for (teid, session) in gateway.sessions() {
        println!(rt; "session {teid} {}", session.subscriber.imsi)?;
        if let Some(address) = session.address {
            println!(rt; "address {address}")?;
        }
    }
    Ok(())
}

/// Hands a datagram of the serving gateway to a packet gateway, and prints what it does.
fn receive(
    rt: &impl Print,
    alloc: Global,
    gateway: &mut Gateway,
    request: &[u8],
) -> anyhow::Result<()> {
    let source = Endpoint {
        ip: PEER.control,
        port: 2123,
    };

    let step = gateway.receive(alloc, source, Plane::Control, request)?;
    println!(rt; "outcome {:?}", step.report.outcome)?;
    if let Some(sent) = step.out {
        println!(rt; "to {} {}", sent.to.ip, hex::encode(alloc, &sent.octets)?)?; // your socket sends it
    }
    print_sessions(rt, gateway)
}

/// Starts a packet gateway, and hands it the request.
fn exchange(rt: &impl Print, alloc: Global, request: &[u8]) -> anyhow::Result<()> {
    let config = settings(alloc)?;
    let mut gateway = Gateway::start(alloc, Role::Packet, &config, Counter(1))?;
    let received = receive(rt, alloc, &mut gateway, request);
    drop(gateway);
    received
}

fn main(rt: HostRuntime) -> anyhow::Result<()> {
    let alloc = rt.alloc();
    let request = hex::decode(alloc, REQUEST)?;
    if let Some(imsi) = subscriber(&request)? {
        println!(rt; "subscriber {imsi}")?;
    }
    let response = echo_response(alloc, Seq::new(1), 7)?;
    println!(rt; "echo response {}", hex::encode(alloc, &response)?)?;
    exchange(&rt, alloc, &request)
}
