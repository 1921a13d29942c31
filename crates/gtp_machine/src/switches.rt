//! Optional behaviour of a gateway.

ghost use Rattle.std.specs.Prelude.{◌≡◌};
ghost use Rattle.gtp_machine.specs.Config.{no_switches};

/// Optional behaviour of a gateway. By default each switch is off.
#[derive(Clone, Copy, Debug, PartialEq, Eq)]
pub struct Switches {
    /// The packet gateway compares the names of access points by their network identifiers (TS 23.003 9.1): case does not
    /// count, nor does an operator identifier (`.mnc<3 digits>.mcc<3 digits>.gprs`) at the end of either name. An access
    /// point that is written as it is asked for comes first. Off, names are compared as they are written.
    pub network_identifiers: bool,
    /// A datagram of the control plane that is of another version than 2 is answered with a Version Not Supported Indication
    /// (TS 29.274 7.7.2), unless its type, the second octet, is 3. Off, it is dropped.
    pub version_not_supported: bool,
}

impl Default for Switches {
    fn default() -> Switches
        ensures { result ≡ no_switches }
    {
        Switches {
            network_identifiers: false,
            version_not_supported: false,
        }
    }
}
