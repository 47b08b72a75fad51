// The show program: a HEX text on standard input, the board that it holds on standard output.
#![tactic(auto)]

fn main(rt: HostRuntime) {
    shell::show_input(&rt);
}
