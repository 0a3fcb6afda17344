// Every kind of line that can't be read, S refused first and later, S again, and a last line without LF.
#![tactic(auto)]

fn main(rt: HostRuntime) {
    console::run(&rt);
}
