// The program tpdutool again, with the argument `page`: its stored run of a page.
#![tactic(auto)]

use std::io;

fn main(rt: HostRuntime) -> io::Result<()> {
    requests::run(&rt)
}
