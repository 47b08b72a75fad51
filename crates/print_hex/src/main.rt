// The HEX program: a script on standard input, the memory that it leaves as Intel HEX on standard output.
#![tactic(auto)]

use script::Program;

fn main(rt: HostRuntime) {
    shell::run(&rt, Program::Hex);
}
