//! The libraries under one name, for callers: both codecs, names, captures, a gateway, a node of many, and a simulated network of two gateways. Contracts
//! and documentation are those of the items that are named here.
#![tactic(auto)]

/// GTPv2-C, the control plane (3GPP TS 29.274): view, decode and encode datagrams.
pub mod control {
    pub use gtp_ie::{Elements, IeValue};
    pub use gtp_v2::{
        Ambr, Apn, BAD_ELEMENT, BEARER_CONTEXT, BearerRequestContext, BearerResponseContext, Below,
        Body, Boxed, Cause, ChargingId, ContextView, Contexts, Counter, CreateBearerRequest,
        CreateBearerResponse, CreateSessionRequest, CreateSessionResponse, Datagram, DatagramView,
        DeleteBearerRequest, DeleteBearerResponse, DeleteSessionRequest, DeleteSessionResponse,
        EbiValue, EchoRequest, EchoResponse, FTeid, Head, IeFault, Imsi, Listed, MISSING_ELEMENT,
        Message, MessageView, Offending, OtherPdnType, Paa, PdnType, Plmn, Pti, Qos, Rat, Rate,
        Rates, Recovery, RemovalResponseContext, Selection, Seq, SessionRequestContext,
        SessionResponseContext, Teid, Tft, V2Fault, Values, VersionNotSupported, decode, encode,
        encode_pair, kinds, pair, type_name, view,
    };
}

/// GTP-U, the user plane (3GPP TS 29.281): view, decode and encode datagrams.
pub mod user {
    pub use gtp_user::{
        ExtensionHeader, ExtensionHeaders, Extensions, Ip, Teid, UserBody, UserFault, UserMessage,
        UserView, decode, encode, kinds, view,
    };
}

/// What messages, elements and extension headers are called (TS 29.274, TS 29.281), and what their values say by forms: `all_names` has
/// the tables, `row_of` and `element_row` find a type in them, `told` and `read` tell what a body says, `put_told` and `write_told` show it
/// as lines and as JSON.
pub mod names {
    pub use gtp_forms::{
        Bits, Case, How, Row, Spelling, Step, Told, View, Word, put_told, read, row_of, write_told,
    };
    pub use gtp_names::{
        Forms, Names, all_names, element_row, form_in_message, is_connection, is_group, told,
    };
}

/// Packet captures (pcap, pcapng): read the GTP datagrams of one.
pub mod capture {
    pub use gtp_capture::{
        CaptureFault, Captured, Counted, Packet, Ports, Refused, Sink, Stop, Time, Unit,
        read_capture, read_packet,
    };
}

/// A serving gateway or a packet gateway, without sockets and clocks.
pub mod gateway {
    pub use gtp_gateway::{
        Accepted, Addr, Addresses, Ambr, Apn, Bearer, BearerList, Begun, CommandFault, Config,
        Counter, DropReason, Ebi, Endpoint, FaultName, Gateway, Ip, Kind, Memory, Outcome, PdnType,
        Plane, Plmn, Pool, Pools, Prefixes, Qos, Rat, Refusal, Report, Request, Role, Selection,
        Sent, Seq, Session, SessionList, SessionSpec, State, Step, Subscriber, Switches, Teid, Tft,
        Ticked, Timers, ValueFault,
    };
}

/// A gateway for each of many peers, under one pair of own addresses: a datagram goes to the gateway of the peer that it comes from.
pub mod node {
    pub use gtp_node::{Node, Places, Routed};
}

/// Both gateways and the network between them.
pub mod world {
    pub use gtp_world::{
        Datagram, Entry, Event, EventOutcome, Mutual, Mutuals, Note, RunFault, World, WorldConfig,
    };
}
