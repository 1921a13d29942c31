//! The program gtpshow: it decodes GTP datagrams, also those of captures, replays scenarios of two gateways, runs one gateway behind lines, and explains its codes.
#![tactic(auto)]

use gtp_commands::{Failure, hint, run};
use std::process::ExitCode;

fn main(rt: HostRuntime) -> ExitCode {
    match run(&rt) {
        Ok(status) => ExitCode::from(status),
        Err(failure) => {
            if failure != Failure::Closed {
                let _ = eprintln!(rt; "{failure}");
                let _ = hint(&rt, failure);
            }
            ExitCode::from(failure.status())
        }
    }
}
