//! Messages read in the place where they lie.

ghost use Rattle.std.specs.Prelude.{◌≡◌, ◌≤◌, length, drop, IfOk, IfErr, IfSome, IsOkAnd, IsTrue, Ok, Err, option_map};
ghost use Rattle.gtp_values.specs.Steps.{Gives};
ghost use Rattle.gtp_user.specs.declared.fault.UserFault.{UserFault as AnyFault};
ghost use Rattle.gtp_user.specs.reading.Message.{message_at};
ghost use Rattle.gtp_user.specs.reading.Viewed.{tail_at, OpensPacket, is_numbered, teid_at};
ghost use Rattle.gtp_user.specs.Message.{MessageValue, message_value, receiver_in, packet_in};
ghost use Rattle.gtp_user.specs.Encoding.{kind_of};
ghost use Rattle.gtp_user.specs.Datagram.{IsUserMessage, IsUserFault};

use crate::body::read_body;
use crate::decoding::read_first;
use crate::extension::{Extensions, read_chain};
use crate::fault::UserFault;
use crate::flags::{
    EXTENSION_HEADER, GTP, N_PDU_NUMBER, PROTOCOL_TYPE, SEQUENCE_NUMBER, field_flags,
};
use crate::header::read_header;
use crate::kinds::{
    ECHO_REQUEST, ECHO_RESPONSE, ERROR_INDICATION, G_PDU, SUPPORTED_EXTENSION_HEADERS_NOTIFICATION,
};
use crate::message::UserMessage;
use gtp_values::{Teid, has_bit};
use std::marker::Model;

/// A message where it lies. Contracts see the message.
#[derive(Clone, Debug, Drop)]
pub struct UserView<'a> {
    /// The whole datagram.
    octets: &'a [u8],
    /// Where what comes after its header and its extension headers begins.
    start: usize,
}

impl<'a> Model for UserView<'a> {
    ghost use Rattle.gtp_user.specs.Message.{MessageValue};
    ghost use Rattle.gtp_user.specs.reading.Viewed.{viewed, IsViewed};

    ghost Value = { MessageValue };

    ghost view = { λ a. viewed a.octets.now };

    ghost invariant = { λ a. IsViewed a.octets.now a.start };
}

/// Whether the first eight octets are those of a G-PDU that fills these octets exactly (TS 29.281 5.1).
#[inline(always)]
fn opens_packet(octets: &[u8]) -> bool
    ensures { IsTrue result → OpensPacket octets.now }
{
    octets.len() >= 8
        && octets[0] >> PROTOCOL_TYPE == GTP >> PROTOCOL_TYPE
        && octets[1] == G_PDU
        && usize::from(u16::from_be_bytes([octets[2], octets[3]])) == octets.len() - 8
}

/// Where the packet of a G-PDU begins; `None` of another message and of a fault. It is read in line and
/// answers one number, so that all stays in registers.
#[inline(always)]
fn packet_start(octets: &[u8]) -> Option<usize>
    ensures tail { IfSome result (λ n. tail_at octets.now ≡ Ok (drop n octets.now)) }
    ensures within { IfSome result (λ n. n ≤ length octets.now) }
{
    if !opens_packet(octets) {
        return None;
    }
    if field_flags(octets[0]) == 0 {
        return Some(8);
    }
    if octets.len() < 12 {
        return None;
    }
    if !has_bit(octets[0], EXTENSION_HEADER) {
        return Some(12);
    }
    let Ok((_, tail)) = read_chain(octets[11], &octets[12..], octets.len()) else {
        return None;
    };
    Some(octets.len() - tail.len())
}

/// A view of any message, by a reading of header, chain and body.
#[cold]
#[inline(never)]
#[tactic(auto, unfolding(crate::specs::reading::Message::message_at))]
fn view_message(octets: &[u8]) -> Result<UserView<'_>, UserFault>
    ensures { Gives (λ v. v) result (message_at octets.now) }
{
    let header = match read_header(octets) {
        Ok(header) => header,
        Err(fault) => return Err(fault),
    };
    let (_, tail) = read_chain(header.first, header.rest, octets.len())?;
    match read_body(header.kind, header.teid, tail, octets.len()) {
        Ok(_) => Ok(UserView {
            octets,
            start: octets.len() - tail.len(),
        }),
        Err(fault) => Err(fault),
    }
}

/// A view of the message that a datagram spells. A G-PDU is looked at first; other messages and faults
/// are read out of line, so that a G-PDU needs no room for them.
#[inline(always)]
fn view_first(octets: &[u8]) -> Result<UserView<'_>, UserFault>
    ensures { Gives (λ v. v) result (message_at octets.now) }
{
    if let Some(start) = packet_start(octets) {
        return Ok(UserView { octets, start });
    }
    match view_message(octets) {
        Ok(view) => Ok(view),
        Err(fault) => Err(fault),
    }
}

/// A view of the message that a datagram spells, or its first fault: what `decode` answers, read where
/// it lies. Takes no memory.
#[inline(always)]
pub fn view(octets: &[u8]) -> Result<UserView<'_>, UserFault>
    // What is answered is spelled so.
    ensures found { IfOk result (IsUserMessage octets.now) }
    // What is spelled so is answered.
    ensures only { (m : MessageValue) →
        IsUserMessage octets.now m → IsOkAnd result (λ v. v ≡ m) }
    // A fault is the first one.
    ensures fault { IfErr result (IsUserFault octets.now) }
    // The first fault is answered.
    ensures first { (f : AnyFault) → IsUserFault octets.now f → result ≡ Err f }
{
    view_first(octets)
}

/// Whether messages of this type always have a sequence number (TS 29.281 5.1).
#[inline(always)]
fn is_numbered(kind: u8) -> bool
    ensures { result ≡ is_numbered kind }
{
    matches!(
        kind,
        ECHO_REQUEST | ECHO_RESPONSE | ERROR_INDICATION | SUPPORTED_EXTENSION_HEADERS_NOTIFICATION
    )
}

/// The TEID in a header.
#[inline(always)]
fn header_teid(octets: &[u8]) -> Teid
    requires { 8 ≤ length octets.now }
    ensures { result ≡ teid_at octets.now }
{
    Teid(u32::from_be_bytes([octets[4], octets[5], octets[6], octets[7]]))
}

impl<'a> UserView<'a> {
    /// The type of the message (TS 29.281 6.1).
    #[inline(always)]
    pub fn kind(&self) -> u8
        ensures { result ≡ kind_of self.now.content }
    {
        self.octets[1]
    }

    /// The receiver's TEID. An echo, an Error Indication and a notification have none (5.1).
    #[inline(always)]
    pub fn teid(&self) -> Option<Teid>
        ensures { result ≡ receiver_in self.now.content }
    {
        if is_numbered(self.octets[1]) {
            None
        } else {
            Some(header_teid(self.octets))
        }
    }

    /// The sequence number.
    #[inline(always)]
    pub fn seq(&self) -> Option<u16>
        ensures { result ≡ self.now.seq }
    {
        if has_bit(self.octets[0], SEQUENCE_NUMBER) {
            Some(u16::from_be_bytes([self.octets[8], self.octets[9]]))
        } else if is_numbered(self.octets[1]) {
            Some(0)
        } else {
            None
        }
    }

    /// The N-PDU number (5.1).
    #[inline(always)]
    pub fn npdu(&self) -> Option<u8>
        ensures { result ≡ self.now.npdu }
    {
        if has_bit(self.octets[0], N_PDU_NUMBER) {
            Some(self.octets[10])
        } else {
            None
        }
    }

    /// The extension headers, in order (5.2).
    #[inline(always)]
    pub fn extensions(&self) -> Extensions<'a>
        ensures { result ≡ self.now.ext }
    {
        if has_bit(self.octets[0], EXTENSION_HEADER) {
            Extensions::of(self.octets[11], &self.octets[12..self.start])
        } else {
            Extensions::none()
        }
    }

    /// The receiver's TEID and the user's packet of a G-PDU; `None` of another message.
    #[inline(always)]
    pub fn packet(&self) -> Option<(Teid, &'a [u8])>
        ensures { option_map (λ p. (p.0, p.1.now)) result ≡ packet_in self.now.content }
    {
        if self.octets[1] == G_PDU {
            Some((header_teid(self.octets), &self.octets[self.start..]))
        } else {
            None
        }
    }

    /// The message, as `decode` answers it. Its octets are read once more.
    pub fn to_message(&self) -> UserMessage<'a>
        ensures { message_value result ≡ self.now }
    {
        match read_first(self.octets) {
            Ok(message) => message,
            Err(_) => unreachable!(),
        }
    }
}
