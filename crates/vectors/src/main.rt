// Replays shape vectors: its stdin is a script of shapes, of which many were written by other producers, its stdout what they hold.
// The same program as `pagebook`, on a stdin of its own.
#![tactic(auto)]

use script::Stopped;

fn main(rt: HostRuntime) -> Result<(), Stopped> {
    script::run(&rt)
}
