// Numbers and words in lines of bytes: how they are written into a buffer, and how they are read. A place goes beside each
// buffer; a writer that borrows the buffer would need a clause on what its lender gets back.
#![tactic(auto)]

ghost use Rattle.std.specs.Prelude.{◌≡◌, ◌≤◌, length, decimal};
ghost use Rattle.std.specs.Option.{option_map};
ghost use Rattle.std.specs.List.{prefix_len};
ghost use Rattle.text.specs.Fields.{field, is_digit, leading_digits, value_of};
ghost use Rattle.text.specs.Placed.{after_write, end_of};

use itoa::Buffer;

// Writes `text` into `buffer` from `at` on, and answers where it ends. Where it has no room, nothing is written.
pub fn put(buffer: &mut [u8], at: usize, text: &[u8]) -> Option<usize>
    ensures value { result ≡ end_of at text.now buffer.old }
    ensures after { buffer.new ≡ after_write at text.now buffer.old }
{
    let end = at.checked_add(text.len())?;
    if end > buffer.len() {
        return None;
    }
    buffer[at..end].copy_from_slice(text);
    Some(end)
}

// Writes the decimal digits of `n`, as `put` writes a text.
pub fn put_decimal(buffer: &mut [u8], at: usize, n: u64) -> Option<usize>
    ensures value { result ≡ end_of at (decimal n) buffer.old }
    ensures after { buffer.new ≡ after_write at (decimal n) buffer.old }
{
    put(buffer, at, Buffer::new().format(n).as_bytes())
}

// How many digits `text` begins with.
fn count_digits(text: &[u8]) -> usize
    ensures { result ≡ prefix_len is_digit text.now }
{
    text.iter().take_while(|b| b.is_ascii_digit()).count()
}

// The number that up to 10 digits write.
fn number_of(digits: &[u8]) -> u64
    requires short { length digits.now ≤ 10 }
    requires all { leading_digits digits.now ≡ digits.now }
    ensures { result ≡ value_of digits.now }
{
    let mut n = 0;
    for b in digits {
        n = n * 10 + u64::from(*b - b'0');
    }
    n
}

// Reads one field, a space and a number of 1 to 10 digits: the number, and what follows it.
pub fn read_field(line: &[u8]) -> Option<(u64, &[u8])>
    ensures { option_map (λ p. (p.0, p.1.now)) result ≡ field line.now }
{
    let [b' ', text @ ..] = line else {
        return None;
    };
    let count = count_digits(text);
    if count == 0 || count > 10 {
        return None;
    }
    let (digits, rest) = text.split_at(count);
    Some((number_of(digits), rest))
}

#[cfg(test)]
mod tests {
    use super::*;
    use std::test::Fail;

    #[test]
    fn writes_zero(rt: HostRuntime) {
        let mut buffer = [b'-'; 3];
        assert_eq!(rt; put_decimal(&mut buffer, 1, 0), Some(2));
        assert_eq!(rt; buffer, *b"-0-");
    }

    #[test]
    fn writes_the_largest(rt: HostRuntime) {
        let mut buffer = [b'-'; 20];
        assert_eq!(rt; put_decimal(&mut buffer, 1, u64::MAX), None);
        assert_eq!(rt; put_decimal(&mut buffer, 0, u64::MAX), Some(20));
        assert_eq!(rt; buffer, *b"18446744073709551615");
    }

    #[test]
    fn reads_one_field(rt: HostRuntime) -> Result<(), Fail> {
        let (n, rest) = read_field(b" 0012 x").ok_or("no field")?;
        assert_eq!(rt; n, 12);
        assert_eq!(rt; rest, b" x".as_slice());
        Ok(())
    }
}
