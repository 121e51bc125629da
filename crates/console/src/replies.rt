// Replies and how they are written.
ghost use Rattle.std.specs.Prelude.{◌≡◌, ◌+◌, ◌≤◌, length, Some, Ok};
ghost use Rattle.text.specs.Placed.{placed};
ghost use Rattle.console.specs.Replies.{on_scale, outcome_text, reply_text, told_by};

use algebra::Scale;
use refusals::Refusal;
use scales::{Count, Hours};
use text::{put, put_decimal};

// A reply buffer has at least so many bytes.
pub(crate) const SHORTEST_BUFFER: usize = 32;

// What a call brings.
#[derive(Clone, Copy)]
pub(crate) enum Outcome {
    // the change is made
    Done,
    // so many fault patterns
    Counted(Count),
    // a repair of so many hours
    Lasting(Hours),
}

// Writes a total: the letter of its scale, a space, the print and a newline; answers how many bytes.
fn write_total<S: Scale>(buffer: &mut [u8], sum: &S) -> Option<usize>
    requires { 3 + length (S.Scale.print sum.now) ≤ length buffer.old }
    ensures value { result ≡ Some (length (reply_text (Ok (on_scale S.Scale.sign (S.Scale.print sum.now))))) }
    ensures after { buffer.new ≡ placed 0 (reply_text (Ok (on_scale S.Scale.sign (S.Scale.print sum.now)))) buffer.old }
{
    // a scale's letter is ASCII, so it is one byte
    let start = put(buffer, 0, &[S::symbol() as u8, b' '])?;
    let long = sum.write(&mut buffer[start..]).ok()?;
    put(buffer, start + long, b"\n")
}

// Writes the text of an outcome and a newline; answers how many bytes.
fn write_outcome(buffer: &mut [u8], outcome: Outcome) -> Option<usize>
    requires { 32 ≤ length buffer.old }
    ensures value { result ≡ Some (length (reply_text (Ok (outcome_text outcome)))) }
    ensures after { buffer.new ≡ placed 0 (reply_text (Ok (outcome_text outcome))) buffer.old }
{
    match outcome {
        Outcome::Done => put(buffer, 0, b"ok\n"),
        Outcome::Counted(count) => write_total(buffer, &count),
        Outcome::Lasting(hours) => write_total(buffer, &hours),
    }
}

// Writes the text of what a call brings, or `no` and the number of the refusal, and a newline; answers how many bytes.
pub(crate) fn write_reply(buffer: &mut [u8], answer: Result<Outcome, Refusal>) -> Option<usize>
    requires { 32 ≤ length buffer.old }
    ensures value { result ≡ Some (length (reply_text (told_by answer))) }
    ensures after { buffer.new ≡ placed 0 (reply_text (told_by answer)) buffer.old }
{
    match answer {
        Ok(outcome) => write_outcome(buffer, outcome),
        Err(refusal) => {
            let end = put(buffer, 0, b"no ")?;
            let end = put_decimal(buffer, end, u64::from(refusal.number()))?;
            put(buffer, end, b"\n")
        }
    }
}
