// 65,536 bytes: the longest sheet that is run.
#![tactic(auto)]

fn main(rt: HostRuntime) {
    console::run(&rt);
}
