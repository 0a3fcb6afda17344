// Runs the sheet on standard input and prints its answers.
#![tactic(auto)]

fn main(rt: HostRuntime) {
    console::run(&rt);
}
