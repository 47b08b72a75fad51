// The drill program (document 01, "The drill program"): a script on standard input, its answers on standard output.
#![tactic(auto)]

use script::Program;

fn main(rt: HostRuntime) {
    shell::run(&rt, Program::Drill);
}
