//! Traffic flow templates.

ghost use Rattle.std.specs.Prelude.{◌≡◌, ◌≤◌, ◌↔◌, length, IsOk, IfOk, IfErr};
ghost use Rattle.gtp_values.specs.declared.fault.ValueFault.TheVariants.{TooLong};

use crate::fault::ValueFault;
use crate::octets::Octets;
use std::marker::Model;

/// A bearer level traffic flow template: at most 255 octets, whose inside is not read
/// (TS 29.274 8.19). Contracts see the list of the octets.
#[derive(Clone, Copy, Debug, PartialEq, Eq)]
pub struct Tft {
    octets: Octets<255>,
}

impl Model for Tft {
    ghost use Rattle.std.specs.Prelude.{ℕ, List, length, ◌≤◌};

    ghost Value = { List ℕ };

    ghost view = { λ a. a.octets };

    ghost invariant = { λ a. length a.octets ≤ 255 };

    ghost inverse = { λ octets. record { octets = octets } };
}

impl Tft {
    /// The template of these octets, `TooLong` above 255.
    pub fn try_new(octets: &[u8]) -> Result<Tft, ValueFault>
        ensures ok { IsOk result ↔ (length octets.now ≤ 255) }
        ensures value { IfOk result (λ tft. tft ≡ octets.now) }
        ensures fault { IfErr result (λ f. f ≡ TooLong) }
    {
        if octets.len() > 255 {
            return Err(ValueFault::TooLong);
        }
        Ok(Tft::of(octets))
    }

    /// The template of these octets, at most 255.
    pub fn of(octets: &[u8]) -> Tft
        requires { length octets.now ≤ 255 }
        ensures { result ≡ octets.now }
    {
        Tft {
            octets: Octets::of(octets),
        }
    }

    /// The octets, at most 255.
    pub fn octets(&self) -> &[u8]
        ensures value { result.now ≡ self.now }
        ensures range { length self.now ≤ 255 }
    {
        self.octets.as_slice()
    }
}
