// Kinds of weight: plus, times, nothing and unit, and the scales, which are the kinds that keep the eight laws.
#![tactic(auto)]

ghost use Rattle.std.specs.Prelude.{◌≡◌, ℕ, ◌<◌, List};
ghost use Rattle.algebra.specs.Laws.{Kind, Laws};
ghost use Rattle.algebra.specs.Prints.{printed_end, after_print};

use refusals::Refusal;

// A kind of weight, without any law: also for numbers that only round.
pub trait Weight: Copy {
    // the values, and plus and times on them
    ghost kind: { Kind };

    // the value that a weight stands for
    ghost value: { Self → kind.Value };

    fn nothing() -> Self
        ensures { value result ≡ kind.nothing };

    fn unit() -> Self
        ensures { value result ≡ kind.unit };

    fn plus(&self, other: &Self) -> Self
        ensures { value result ≡ kind.plus (value self.now) (value other.now) };

    fn times(&self, other: &Self) -> Self
        ensures { value result ≡ kind.times (value self.now) (value other.now) };
}

// A scale: a kind of weight that keeps the laws, with a letter and a print.
pub trait Scale: Weight {
    const LETTER: char;

    // the letter as a byte
    ghost sign: { ℕ };

    // the bytes that a weight is printed as
    ghost print: { Self → List ℕ };

    // The letter, by a method, since a clause cannot cite the constant.
    fn symbol() -> char
        ensures { result ≡ sign };

    // Writes the print at the buffer's start and answers its length.
    fn write(&self, buffer: &mut [u8]) -> Result<usize, Refusal>
        ensures value { result ≡ printed_end (print self.now) buffer.old }
        ensures after { buffer.new ≡ after_print (print self.now) buffer.old };

    ghost laws: { Laws Self.Weight.kind };

    ghost sign_is_ascii: { sign < 128 };

    // one print for each value
    ghost print_of_value: { (x y : Self) → Self.Weight.value x ≡ Self.Weight.value y → print x ≡ print y };
}
