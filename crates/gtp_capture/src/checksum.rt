//! Checksums (RFC 1071).

ghost use Rattle.std.specs.Prelude.{◌≡◌, ◌≢◌, ◌⊎◌, ◌+◌};
ghost use Rattle.gtp_capture.specs.Writing.{ones_plus};
ghost use Rattle.gtp_capture.specs.reading.Writing.{first_number, ones_onto};

/// The sum of two numbers in one's complement.
fn plus(a: u16, b: u16) -> u16
    ensures { result ≡ ones_plus a b }
{
    let sum = u32::from(a) + u32::from(b);
    (sum % 65536 + sum / 65536) as u16
}

/// The number in the first two octets; a single one is followed by 0.
fn number_in(octets: &[u8]) -> u16
    ensures { result ≡ first_number octets.now }
{
    match octets {
        [high, low, ..] => u16::from_be_bytes([*high, *low]),
        [high] => u16::from_be_bytes([*high, 0]),
        [] => 0,
    }
}

/// The sum of the numbers in octets, two for each, and of a further one.
pub fn sum_onto(octets: &[u8], further: u16) -> u16
    ensures { result ≡ ones_onto octets.now further }
{
    let mut sum = further;
    let mut left = octets.len() / 2 + octets.len() % 2;
    while left > 0 {
        left -= 1;
        sum = plus(number_in(&octets[2 * left..]), sum);
    }
    sum
}

/// What makes a sum 65535.
pub fn complement(sum: u16) -> u16
    ensures { result + sum ≡ 65535 }
{
    65535 - sum
}

/// The same, but 65535 in place of 0.
pub fn udp_complement(sum: u16) -> u16
    ensures other { result ≢ 0 }
    ensures value { (result + sum ≡ 65535) ⊎ ((result ≡ 65535) × (sum ≡ 65535)) }
{
    if sum == 65535 { 65535 } else { 65535 - sum }
}
