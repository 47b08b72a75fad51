// The fault program, the drill with damage: a script on standard input, its answers on standard output.
#![tactic(auto)]

use script::Program;

fn main(rt: HostRuntime) {
    shell::run(&rt, Program::Fault);
}
