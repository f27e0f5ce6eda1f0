// The program tpdutool again, with the argument `page`: its stored run of lines that are told, and of 100 reports.
#![tactic(auto)]

use std::io;

fn main(rt: HostRuntime) -> io::Result<()> {
    requests::run(&rt)
}
