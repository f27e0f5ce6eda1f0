// The program tpdutool again, with the argument `show`: its stored run for people.
#![tactic(auto)]

use std::io;

fn main(rt: HostRuntime) -> io::Result<()> {
    requests::run(&rt)
}
