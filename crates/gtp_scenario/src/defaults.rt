//! What all scenarios have in common.

ghost use Rattle.std.specs.Prelude.{◌≡◌};
ghost use Rattle.gtp_gateway.specs.command.CreateSession.{specification};
ghost use Rattle.gtp_scenario.specs.Events.{network, no_rates, qos, session_for};

use gtp_gateway::{Ambr, PdnType, Plmn, Qos, Rat, Selection, SessionSpec, Subscriber};
use gtp_values::{Below, Rate, Rates};

/// The test network, 001 01.
fn network() -> Plmn
    ensures { result ≡ network }
{
    match Plmn::try_new(&[0, 0, 1], &[0, 1]) {
        Ok(network) => network,
        Err(_) => unreachable!(),
    }
}

/// No bit rate.
fn no_rates() -> Rates
    ensures { result ≡ no_rates }
{
    Rates {
        up: Rate::new(0),
        down: Rate::new(0),
    }
}

/// The quality of service of every bearer.
pub(crate) fn qos() -> Qos
    ensures { result ≡ qos }
{
    Qos {
        pci: false,
        pl: Below::new(8),
        pvi: false,
        qci: 9,
        mbr: no_rates(),
        gbr: no_rates(),
    }
}

/// A session of this subscriber.
pub(crate) fn session_for(subscriber: Subscriber, pdn: PdnType) -> SessionSpec
    ensures { specification result ≡ session_for subscriber pdn.0 }
{
    SessionSpec {
        subscriber,
        plmn: network(),
        rat: Rat(6),
        selection: Selection(Below::new(0)),
        pdn,
        ambr: Ambr {
            up: 1000,
            down: 1000,
        },
        qos: qos(),
    }
}
