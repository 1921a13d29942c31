//! Packet captures of the formats pcap and pcapng, as tcpdump and Wireshark write them: reads one a record or block at a time,
//! and hands on each GTP datagram in it; writes one of datagrams (pcap).
#![tactic(auto)]

mod block;
mod block_kind;
mod captured;
mod checksum;
mod clock;
mod fault;
mod head;
mod interface;
mod internet;
mod laws;
mod link;
mod octets;
mod options;
mod packet;
mod ports;
mod read_exact;
mod reading;
mod record;
mod step;
mod udp;
mod writing;

pub use captured::{Captured, Refused, Sink, Time};
pub use fault::{CaptureFault, Stop};
pub use head::{Kind, Unit, begins_as_capture};
pub use interface::Interface;
pub use laws::{a_file_has_one_reading, what_is_read_is_carried};
pub use octets::Order;
pub use packet::{Packet, read_packet};
pub use ports::{Ports, plane_of};
pub use reading::read_capture;
pub use writing::{
    Ends, WrittenDatagram, what_is_written_is_read_back, write_capture, write_datagram, write_head,
};

/// What the signatures and contracts here name of the crate below.
pub use gtp_counted::Counted;
