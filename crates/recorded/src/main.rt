// Replays answers of the original Rust: its stdin is a script of questions, its stdout what the Rust answered.
// The same program as `pagebook`, on a stdin of its own.
#![tactic(auto)]

use script::Stopped;

fn main(rt: HostRuntime) -> Result<(), Stopped> {
    script::run(&rt)
}
