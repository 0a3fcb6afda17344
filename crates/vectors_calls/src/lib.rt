// The calls and the published method on plain numbers: each runs a command and has an answer, which is printed after a text. The
// program vectors runs its cases by them. A line of the cases names its call by a letter or a digit, which is matched where it is run: an
// enum of so many calls would be made from it there to be matched in the next line.
#![tactic(auto)]

mod answer;
mod archive;
mod calls;
mod crashes;
mod method;

pub use answer::{Answer, print};
pub use archive::Archive;
pub use calls::call;
pub use method::draw;

// What a case runs: a letter that names it, and the numbers that it takes.
#[derive(Clone, Copy)]
pub struct Command {
    pub letter: u8,
    pub numbers: [u32; 8],
}
