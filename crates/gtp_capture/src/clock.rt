//! When a frame of a block was captured.

ghost use Rattle.std.specs.Prelude.{◌≡◌, ◌/◌, ◌≤◌, ◌<◌, ◌^◌, IfSome, IfNone};
ghost use Rattle.gtp_capture.specs.Clock.{per_second as units_of, seconds_in, nanoseconds_in, time_at};

use crate::captured::Time;
use crate::head::Unit;

/// More units than any count of nanoseconds reaches: 2 to the power of 94.
const MANY: u128 = 0x4000_0000_0000_0000_0000_0000;

/// A number to a power, if that is not above any count.
fn power(base: u8, exponent: u8) -> Option<u128>
    requires { 0 < base }
    ensures found { IfSome result (λ n. n ≡ base ^ exponent) }
    ensures none { IfNone result (2 ^ 94 ≤ base ^ exponent) }
{
    let mut n = 1u128;
    for _ in 0..exponent {
        if n >= MANY {
            return None;
        }
        n *= u128::from(base);
    }
    Some(n)
}

/// How many units of a resolution a second has, if these are not above any count.
fn per_second(resolution: u8) -> Option<u128>
    ensures found { IfSome result (λ n. (n ≡ units_of resolution)) }
    ensures some { IfSome result (λ n. 0 < n) }
    ensures none { IfNone result (2 ^ 94 ≤ units_of resolution) }
{
    if resolution < 128 {
        power(10, resolution)
    } else {
        power(2, resolution - 128)
    }
}

/// Whole seconds and an offset, of which the low 32 bits are kept.
fn seconds_of(seconds: u64, offset: u64) -> u32
    ensures { result ≡ seconds_in seconds offset }
{
    ((seconds % 4_294_967_296 + offset % 4_294_967_296) % 4_294_967_296) as u32
}

/// The whole seconds of a count of units.
fn whole(count: u64, resolution: u8) -> u64
    ensures { result ≡ count / units_of resolution }
{
    match per_second(resolution) {
        Some(second) => (u128::from(count) / second) as u64,
        None => 0,
    }
}

/// What is beyond them, in nanoseconds.
fn nanoseconds(count: u64, resolution: u8) -> u32
    ensures { result ≡ nanoseconds_in count (units_of resolution) }
{
    match per_second(resolution) {
        Some(second) => (u128::from(count) % second * 1_000_000_000 / second) as u32,
        None => 0,
    }
}

/// The time of a count of units.
pub fn time_of(resolution: u8, offset: u64, count: u64) -> Time
    ensures { result ≡ time_at resolution offset count }
{
    if resolution == 6 {
        return Time {
            seconds: seconds_of(count / 1_000_000, offset),
            fraction: (count % 1_000_000) as u32,
            unit: Unit::Microseconds,
        };
    }
    Time {
        seconds: seconds_of(whole(count, resolution), offset),
        fraction: nanoseconds(count, resolution),
        unit: Unit::Nanoseconds,
    }
}
