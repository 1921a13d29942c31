//! Datagrams that are decoded and encoded again.

use crate::stop::Stop;
use crate::trial::Trial;
use gtp_codec_tests::datagrams::{
    BEARER_REQUEST, BEARER_RESPONSE, SESSION_REQUEST, SESSION_RESPONSE,
};
use gtp_v2::{V2Fault, decode, encode};
use std::alloc::Global;

/// Whether a datagram is decoded, and its message encoded to the same octets.
fn is_encoded_again(alloc: Global, octets: &[u8]) -> Result<bool, V2Fault> {
    let datagram = decode(alloc, octets)?;
    encode(alloc, &datagram.message).map(|encoded| encoded.as_slice() == octets)
}

/// The same, decoded and encoded once more if memory was refused.
fn is_canonical(trial: &mut Trial, octets: &[u8]) -> bool {
    match is_encoded_again(trial.alloc, octets) {
        Ok(is_same) => is_same,
        Err(V2Fault::Memory) => {
            trial.was_refused = true;
            is_encoded_again(trial.alloc, octets) == Ok(true)
        }
        Err(_) => false,
    }
}

/// Appends a line with the digits of a datagram, which is decoded and encoded.
fn put_datagram(text: &mut Vec<u8>, trial: &mut Trial, digits: &str) -> Result<(), Stop> {
    let octets = hex::decode(trial.alloc, digits).map_err(|_| Stop::Refused)?;
    if !is_canonical(trial, &octets) {
        return Err(Stop::Wrong("a datagram that was decoded and encoded"));
    }
    text.extend_from_slice(digits.as_bytes())
        .map_err(|_| Stop::Refused)?;
    text.push(b'\n').map_err(|_| Stop::Refused)
}

/// Appends the requests and answers of a session and of a dedicated bearer, each decoded and encoded.
pub fn put_datagrams(text: &mut Vec<u8>, trial: &mut Trial) -> Result<(), Stop> {
    for digits in [
        SESSION_REQUEST,
        SESSION_RESPONSE,
        BEARER_REQUEST,
        BEARER_RESPONSE,
    ] {
        put_datagram(text, trial, digits)?;
    }
    Ok(())
}
