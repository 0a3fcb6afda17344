// What a case answers, and the one place that prints it.
use replies::Reply;
use std::io::Write;
use std::{fmt, io};

// A number is also a refusal, a word, a counter or a server's used.
#[derive(Clone, Copy)]
pub enum Answer<'a> {
    Nothing,
    YesOrNo(bool),
    Number(u64),
    // A refusal and how many there are, of an image's words or of a table's servers.
    Counted(u32, usize),
    Three(u32, u32, u64),
    Words(&'a [u32]),
    Reply(Reply),
}

// A blank stands before each word, and between the numbers of another answer. A reply's numbers are its refusal, server, value,
// opened and invalidated.
impl fmt::Display for Answer<'_> {
    fn fmt<W: fmt::Write>(&self, f: &mut fmt::Formatter<W>) -> fmt::Result {
        match self {
            Answer::Nothing => Ok(()),
            Answer::YesOrNo(yes) => f.write_str(if *yes { "yes" } else { "no" }),
            Answer::Number(n) => write!(f, "{n}"),
            Answer::Counted(refusal, count) => write!(f, "{refusal} {count}"),
            Answer::Three(first, second, third) => write!(f, "{first} {second} {third}"),
            Answer::Words(words) => {
                for word in *words {
                    write!(f, " {word}")?;
                }
                Ok(())
            }
            Answer::Reply(r) => write!(
                f,
                "{} {} {} {} {}",
                r.refusal, r.server, r.value, r.opened, r.invalidated
            ),
        }
    }
}

// Prints a line of the text and the answer, and nothing where there is no answer. Where there is no text, only words and yes or no are
// printed.
pub fn print<W: Write>(out: &mut W, text: &[u8], answer: Answer<'_>) -> io::Result<()> {
    let printed = match answer {
        Answer::Nothing => false,
        Answer::YesOrNo(_) | Answer::Words(_) => true,
        _ => !text.is_empty(),
    };
    if !printed {
        return Ok(());
    }
    out.write_all(text)?;
    writeln!(out, "{answer}")
}
