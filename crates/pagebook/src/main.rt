// Runs a script of questions and writes an answer for each: docs/SCRIPT.md has the language.
// `recorded` and `vectors` are the same program: a crate is run on one stdin, and each has its own.
#![tactic(auto)]

use script::Stopped;

fn main(rt: HostRuntime) -> Result<(), Stopped> {
    script::run(&rt)
}
