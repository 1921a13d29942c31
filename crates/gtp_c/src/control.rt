//! Datagrams of the control plane, read in place.

ghost use Rattle.std.specs.Prelude.{◌≡◌, ◌≢◌};
ghost use Rattle.gtp_v2.specs.Pair.{DatagramValue, IsDatagram};
ghost use Rattle.gtp_c.specs.Reading.{IsRead, IsFaulty, head_told};

use crate::fault::Fault;
use crate::status::{DONE, FAULTY};
use crate::told::bit;
use gtp_v2::{DatagramView, view};

/// The head of a message, and where its elements stand.
#[repr(C)]
#[derive(Clone, Copy)]
pub struct Head {
    /// Where the octets after the header begin, and how many there are.
    pub list_at: u64,
    pub list_len: u64,
    /// So many octets at the end of the datagram are a second message; 0 for none.
    pub second_len: u64,
    /// The receiver's TEID; 0 for none.
    pub teid: u32,
    pub seq: u32,
    /// The type of the message.
    pub kind: u8,
    /// 1 where the header has a TEID.
    pub has_teid: u8,
    /// 1 where the header has a priority, and it.
    pub has_priority: u8,
    pub priority: u8,
    /// 1 where the type has a table, so that the octets after the header are elements.
    pub has_elements: u8,
}

impl Head {
    fn of(view: &DatagramView<'_>) -> Head
        ensures { result ≡ head_told view.now }
    {
        let message = view.message();
        let (list_at, has_teid, teid) = match message.teid() {
            Some(teid) => (12, 1, teid.0),
            None => (8, 0, 0),
        };
        let (has_priority, priority) = match message.priority() {
            Some(priority) => (1, priority.number()),
            None => (0, 0),
        };
        Head {
            list_at,
            list_len: message.octets().len() as u64,
            second_len: view.back().len() as u64,
            teid,
            seq: message.seq().number(),
            kind: message.kind(),
            has_teid,
            has_priority,
            priority,
            has_elements: bit(message.raw().is_none()),
        }
    }
}

/// Reads a datagram of the control plane: 0 with `head` filled, or 9 with `fault`, its first fault.
#[unsafe(no_mangle)]
pub extern "C" fn gtp_control_read(octets: &[u8], head: &mut Head, fault: &mut Fault) -> u8
    // What is read is spelled so.
    ensures found { result ≡ 0 → IsRead octets.now head.new }
    // What is spelled is read.
    ensures only { (d : DatagramValue) → IsDatagram octets.now d → result ≡ 0 }
    // The first fault is told.
    ensures fault { result ≢ 0 → IsFaulty octets.now fault.new }
    // What does not belong to the answer is as it was.
    ensures no_head { result ≢ 0 → head.new ≡ head.old }
    ensures no_fault { result ≡ 0 → fault.new ≡ fault.old }
    ensures known { result ≢ 0 → result ≡ 9 }
{
    match view(octets) {
        Ok(view) => {
            *head = Head::of(&view);
            DONE
        }
        Err(first) => {
            *fault = Fault::of_control(first);
            FAULTY
        }
    }
}
