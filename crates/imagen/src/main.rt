//! `imagen` takes a web page in the middle of a session and lets it go on in another session.
#![tactic(auto)]

use command_line::{run_on_system, tell_out_of_memory};
use shelf::SqliteKeeper;
use std::process::ExitCode;

// Where sessions are kept, in the folder of the call.
const SESSIONS: &str = "imagen.db";

fn main(rt: HostRuntime) -> ExitCode {
    match String::from_str(rt.alloc(), SESSIONS) {
        Ok(path) => run_on_system(&rt, rt.stdout(), rt.stderr(), SqliteKeeper::new(&rt, path)),
        Err(_) => tell_out_of_memory(rt.stderr()),
    }
}
