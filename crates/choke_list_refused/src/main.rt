// choke-list on a job that is refused: an end of the second boundary lies past the map.
#![tactic(auto)]

use std::io;

fn main(rt: HostRuntime) -> io::Result<()> {
    printing::run(&rt)
}
