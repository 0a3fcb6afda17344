// The draw of an id on a server: the server's step, the seed, and three rounds of xorshift. This crate knows no weights.
#![tactic(auto)]

mod constants;

ghost use Rattle.std.specs.Prelude.{◌≡◌, ◌<◌, true};
ghost use Rattle.limits.specs.Limits.{max_servers};
ghost use Rattle.draws.specs.Draw.{step_of, are_steps, seed_of, round_of, draw_of};
ghost use Rattle.draws.specs.declared.constants.TheConstants.{STEPS};

use constants::STEPS;

// The step of a server, read from the table of constants. There are at most 256 servers, and who asks shows that its number is one of
// these (limits).
pub fn step(server: usize) -> u32
    requires { server < max_servers }
    ensures rule { are_steps STEPS ≡ true }
    ensures step { result ≡ step_of server }
{
    STEPS[server]
}

// The seed of an id on a server under a salt. It is never 0.
pub fn seed(salt: u32, id: u32, server: usize) -> u32
    requires { server < max_servers }
    ensures { result ≡ seed_of salt id server }
{
    id.wrapping_add(salt).wrapping_add(step(server)).max(1)
}

// The draw of an id on a server under a salt.
pub fn draw(salt: u32, id: u32, server: usize) -> u32
    requires { server < max_servers }
    ensures { result ≡ draw_of salt id server }
{
    round(round(round(seed(salt, id, server))))
}

// One round of xorshift.
pub fn round(s: u32) -> u32
    ensures { result ≡ round_of s }
{
    let a = s ^ (s << 13);
    let b = a ^ (a >> 17);
    b ^ (b << 5)
}
