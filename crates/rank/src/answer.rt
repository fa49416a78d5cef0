//! How an answer is printed.
ghost use Rattle.rank.specs.Shown.{answer_line};
ghost use Rattle.std.specs.Prelude.{Some};

use selectors::{CallRefusal, Reply};
use std::fmt;

/// What a call answers: `ok`, the number, or `refused` and the refusal's number.
#[derive(Clone, Copy)]
pub struct Answer(pub Result<Reply, CallRefusal>);

impl fmt::Display for Answer {
    ghost output = { λ a. Some (answer_line a.0) };

    fn fmt<W: fmt::Write>(&self, f: &mut fmt::Formatter<W>) -> fmt::Result {
        match self.0 {
            Ok(Reply::Done) => write!(f, "ok"),
            Ok(Reply::Total(number) | Reply::Code(number)) => write!(f, "{number}"),
            Err(refusal) => write!(f, "refused {}", refusal.number()),
        }
    }
}
