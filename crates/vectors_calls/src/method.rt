// The method on plain numbers: steps, rounds, seeds, draws, picks, and the comparisons at the edges.
ghost use Rattle.std.specs.Prelude.{◌≤◌};
ghost use Rattle.limits.specs.Limits.{max_capacity};

use crate::{Answer, Command};
use placement::Fraction;

// A seed after this many rounds.
fn rounds(seed: u32, n: u32) -> u32 {
    let mut s = seed;
    for _ in 0..n {
        s = draws::round(s);
    }
    s
}

// The write server of id 626627286 under a salt among three servers of these weights.
fn picked(first: u32, second: u32, third: u32, salt: u32) -> u64
    requires { (first ≤ max_capacity) × (second ≤ max_capacity) × (third ≤ max_capacity) }
{
    let weights: [u32; 3] = [first, second, third];
    placement::write_server(&weights, salt, 626627286) as u64
}

// p is for the step of a server, s for the seed and d for the draw of an id on a server, r for a seed after some rounds, and k
// for the pick among three servers of these weights; the last number of s, d and k is a salt.
fn number(command: Command) -> u64 {
    let [a, b, c, d, ..] = command.numbers;
    match command.letter {
        b'p' => u64::from(draws::step((a % 256) as usize)),
        b's' => u64::from(draws::seed(c, a, (b % 256) as usize)),
        b'd' => u64::from(draws::draw(c, a, (b % 256) as usize)),
        b'r' => u64::from(rounds(a, b)),
        _ => picked(a % 65537, b % 65537, c % 65537, d),
    }
}

// e tells whether a fraction exceeds a draw, and l whether it is at least another; the other letters give numbers.
pub fn draw(command: Command) -> Answer<'static> {
    let [a, b, c, d, ..] = command.numbers;
    let first = Fraction { num: a, den: b };
    match command.letter {
        b'e' => Answer::YesOrNo(placement::exceeds(first, c)),
        b'l' => Answer::YesOrNo(placement::at_least(first, Fraction { num: c, den: d })),
        _ => Answer::Number(number(command)),
    }
}
