// The program `vectors`: runs the published vectors of the ciphers, queries of the hashes whose answers were computed
// apart from this code, and the Monday gate. Each line says 'ok', or what differs.
#![tactic(auto)]

mod aes_queries;
mod aes_run;
mod chacha_published;
mod chacha_queries;
mod chacha_run;
mod monday;
mod report;

use aes_run::run_aes;
use chacha_run::run_chacha;
use monday::run_monday;
use std::io;

fn main(rt: HostRuntime) -> io::Result<()> {
    run_aes(&rt)?;
    run_chacha(&rt)?;
    run_monday(&rt)
}
