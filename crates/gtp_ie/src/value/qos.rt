//! Bearer qualities of service as elements (TS 29.274 8.15).

ghost use Rattle.gtp_ie.specs.Form.{number_of};
ghost use Rattle.gtp_ie.specs.declared.form.Form.TheVariants as forms;
ghost use Rattle.std.specs.Prelude.{◌≡◌, ◌≤◌, ◌+◌, length, drop};
ghost use Rattle.byteorder.specs.Endian.{big_number};
ghost use Rattle.std.proofs.Common.{rules};
ghost use Rattle.gtp_ie.specs.Value.{OfQos, AreRates, rates_encoding};

use crate::fault::ReadFault;
use crate::kinds::QOS;
use crate::value::{IeValue, long_enough};
use byteorder::{BigEndian, ByteOrder};
use gtp_values::{Below, Qos, Rate, Rates};
use std::alloc::AllocError;

/// A bit rate in five octets.
fn rate(octets: &[u8]) -> Rate
    requires { 5 ≤ length octets.now }
    ensures { result ≡ big_number 5 octets.now }
{
    Rate::new(BigEndian::read_uint(octets, 5))
}

/// Bit rates in five octets each, those up before those down.
fn rates(octets: &[u8]) -> Rates
    requires { 10 ≤ length octets.now }
    ensures up { result.up ≡ big_number 5 octets.now }
    ensures down { result.down ≡ big_number 5 (drop 5 octets.now) }
{
    Rates {
        up: rate(octets),
        down: rate(&octets[5..]),
    }
}

/// Writes bit rates into ten octets.
fn octets_of(rates: &Rates) -> [u8; 10]
    ensures text { result ≡ rates_encoding rates.now }
    ensures range { AreRates rates.now }
{
    let mut octets = [0u8; 10];
    BigEndian::write_uint(&mut octets, rates.up.number(), 5);
    BigEndian::write_uint(&mut octets[5..], rates.down.number(), 5);
    octets
}

impl IeValue for Qos {
    const KIND: u8 = QOS;

    ghost KIND = { number_of forms.Qos };

    ghost value = { OfQos };

    ghost one_value = { Prim.search rules };

    #[tactic(auto, unfolding(crate::specs::Value::value_at))]
    fn check(body: &[u8]) -> Result<(), ReadFault> {
        long_enough(body, 22)
    }

    #[tactic(auto, unfolding(crate::specs::Value::value_at))]
    fn build(body: &[u8]) -> Qos {
        let flags = body[0];
        Qos {
            pci: flags / 64 % 2 == 1,
            pl: Below::new(flags / 4 % 16),
            pvi: flags % 2 == 1,
            qci: body[1],
            mbr: rates(&body[2..]),
            gbr: rates(&body[12..]),
        }
    }

    #[tactic(auto, unfolding(crate::specs::Value::encoding_of), using(crate::proofs::Again::qos_again, crate::proofs::FreeKinds::encoding_free))]
    fn write(&self, out: &mut Vec<u8>) -> Result<(), AllocError> {
        let flags = 64 * u8::from(self.pci) + 4 * self.pl.number() + u8::from(self.pvi);
        let mbr = octets_of(&self.mbr);
        let gbr = octets_of(&self.gbr);
        out.extend_from_slice(&[
            flags, self.qci, mbr[0], mbr[1], mbr[2], mbr[3], mbr[4], mbr[5], mbr[6], mbr[7],
            mbr[8], mbr[9], gbr[0], gbr[1], gbr[2], gbr[3], gbr[4], gbr[5], gbr[6], gbr[7], gbr[8],
            gbr[9],
        ])
    }

    #[tactic(auto, unfolding(crate::specs::Value::encoding_of))]
    fn body_length(&self) -> usize {
        22
    }
}
