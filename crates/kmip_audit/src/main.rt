//! `kmip_audit`: says whether a recorded KMIP session is possible in the order of a witness.
#![tactic(auto)]

use kmipa_command::{Host, Output, run_session, words_of};
use std::io::IsTerminal;
use std::process::ExitCode;

fn main(rt: HostRuntime) -> ExitCode {
    let watched = rt.stderr().is_terminal();
    let status = match words_of(&rt) {
        Ok(words) => {
            let (world, out) = (Host::new(&rt), Output::new(&rt));
            run_session(rt.alloc(), words.as_slice(), &world, out, watched).status
        }
        Err(status) => status,
    };
    ExitCode::from(status.number())
}
