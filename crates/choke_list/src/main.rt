// choke-list: lists what Reduce keeps of the job on standard input.
#![tactic(auto)]

use std::io;

fn main(rt: HostRuntime) -> io::Result<()> {
    printing::run(&rt)
}
