// 65,537 bytes: one more than a sheet may have.
#![tactic(auto)]

fn main(rt: HostRuntime) {
    console::run(&rt);
}
