// Each refusal that a sheet can meet, by number; 1, 7 and 10 need a table and words that were not left together, and are in vectors.
#![tactic(auto)]

fn main(rt: HostRuntime) {
    console::run(&rt);
}
