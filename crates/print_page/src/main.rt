// The page program: a script on standard input, the page of the board that it leaves on standard output.
#![tactic(auto)]

use script::Program;

fn main(rt: HostRuntime) {
    shell::run(&rt, Program::Page);
}
