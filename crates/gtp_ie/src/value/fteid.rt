//! Tunnel ends as elements (TS 29.274 8.22).

ghost use Rattle.gtp_ie.specs.Form.{number_of};
ghost use Rattle.gtp_ie.specs.declared.form.Form.TheVariants as forms;
ghost use Rattle.std.specs.Prelude.{◌≡◌, ◌≤◌, ◌+◌, length};
ghost use Rattle.std.proofs.Common.{rules};
ghost use Rattle.gtp_ie.specs.Value.{OfFTeid, address_encoding};
ghost use Rattle.gtp_ie.specs.Value.{has_v4, has_v6, room, least_of};

use crate::fault::ReadFault;
use crate::kinds::FTEID;
use crate::value::{IeValue, first, long_enough};
use crate::writing::append;
use byteorder::{BigEndian, ByteOrder};
use gtp_values::{Below, FTeid, Teid};
use std::alloc::AllocError;

/// The octets of an address, or none.
fn octets_of<const N: usize>(address: &Option<[u8; N]>) -> &[u8]
    ensures value { result.now ≡ address_encoding address.now }
    ensures most { length result.now ≤ N }
{
    match address {
        Some(octets) => octets,
        None => &[],
    }
}

/// What the flags of an F-TEID say of the parts after them.
#[derive(Clone, Copy)]
struct EndParts {
    has_v4: bool,
    has_v6: bool,
    /// Where the version 4 address ends, or would begin.
    after_v4: usize,
    /// Where the last of them ends.
    end: usize,
}

/// The parts of an F-TEID's body, by its flags.
fn parts_of(body: &[u8]) -> EndParts
    requires { 1 ≤ length body.now }
    ensures v4 { result.has_v4 ≡ has_v4 body.now }
    ensures v6 { result.has_v6 ≡ has_v6 body.now }
    ensures place { result.after_v4 ≡ 5 + room (has_v4 body.now) 4 }
    ensures end { result.end ≡ least_of forms.FTeid body.now }
{
    let has_v4 = body[0] >> 7 == 1;
    let has_v6 = body[0] >> 6 & 1 == 1;
    let after_v4 = if has_v4 { 9 } else { 5 };
    let end = if has_v6 { after_v4 + 16 } else { after_v4 };
    EndParts {
        has_v4,
        has_v6,
        after_v4,
        end,
    }
}

impl IeValue for FTeid {
    const KIND: u8 = FTEID;

    ghost KIND = { number_of forms.FTeid };

    ghost value = { OfFTeid };

    ghost one_value = { Prim.search rules };

    #[tactic(auto, unfolding(crate::specs::Value::value_at))]
    fn check(body: &[u8]) -> Result<(), ReadFault> {
        long_enough(body, 1)?;
        let parts = parts_of(body);
        long_enough(body, parts.end)?;
        if !parts.has_v4 && !parts.has_v6 {
            return Err(ReadFault::Bad);
        }
        Ok(())
    }

    #[tactic(auto, unfolding(crate::specs::Value::value_at))]
    fn build(body: &[u8]) -> FTeid {
        let parts = parts_of(body);
        let v4 = if parts.has_v4 {
            Some(first::<4>(&body[5..]))
        } else {
            None
        };
        let v6 = if parts.has_v6 {
            Some(first::<16>(&body[parts.after_v4..]))
        } else {
            None
        };
        let teid = Teid(BigEndian::read_u32(&body[1..]));
        FTeid::of(Below::new(body[0] & 0x3f), teid, v4, v6)
    }

    #[tactic(auto, unfolding(crate::specs::Value::encoding_of), using(crate::proofs::AgainAddresses::fteid_again, crate::proofs::FreeKinds::encoding_free))]
    fn write(&self, out: &mut Vec<u8>) -> Result<(), AllocError> {
        let v4 = self.v4();
        let v6 = self.v6();
        let interface = self.interface().number();
        let flags = 128 * u8::from(v4.is_some()) + 64 * u8::from(v6.is_some()) + interface;
        let mut teid = [0u8; 4];
        BigEndian::write_u32(&mut teid, self.teid().0);
        // Most ends have an address of version 4 alone. All octets are appended at once, since each
        // append of a part checks for room.
        if let (Some(v4), None) = (v4, v6) {
            return out.extend_from_slice(&[
                flags, teid[0], teid[1], teid[2], teid[3], v4[0], v4[1], v4[2], v4[3],
            ]);
        }
        append(out, &[&[flags], &teid, octets_of(&v4), octets_of(&v6)])
    }

    #[tactic(auto, unfolding(crate::specs::Value::encoding_of))]
    fn body_length(&self) -> usize {
        let v4 = self.v4();
        let v6 = self.v6();
        5 + octets_of(&v4).len() + octets_of(&v6).len()
    }
}
