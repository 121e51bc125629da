// Lines that a fitter keys, and the calls that they make.
ghost use Rattle.std.specs.Prelude.{◌≡◌};
ghost use Rattle.std.specs.Option.{option_map};
ghost use Rattle.console.specs.Requests.{ends, largest_number, named_call, one_number, request, two_numbers};

use network::Link;
use text::read_field;

// A call on the cabinet, as a line makes it.
#[derive(Clone, Copy, PartialEq, Eq, Debug)]
pub enum Request {
    // a voter trio with this part code
    AddVoter(u16),
    // a module trio with this part code
    AddModule(u16),
    // a link
    Link(Link),
    // that link cut
    Cut(Link),
    // how many fault patterns are tolerated
    CountPatterns,
    // the longest repair, at so many hours for each fault
    LongestRepair(u32),
}

const LONGEST_LINE: usize = 40;

const LARGEST_CODE: u64 = 65535;

const LARGEST_NUMBER: u64 = 4294967295;

// The one number that `text` consists of, if it is not above `most`.
fn one_number(text: &[u8], most: u64) -> Option<u64>
    ensures { result ≡ one_number most text.now }
{
    let (n, []) = read_field(text)? else {
        return None;
    };
    if n > most {
        return None;
    }
    Some(n)
}

// The two numbers that `text` consists of, if neither is above `most`.
fn two_numbers(text: &[u8], most: u64) -> Option<(u64, u64)>
    ensures { result ≡ two_numbers most text.now }
{
    let (first, rest) = read_field(text)?;
    if first > most {
        return None;
    }
    let second = one_number(rest, most)?;
    Some((first, second))
}

// The link that `text` tells by its two numbers.
fn link(text: &[u8]) -> Option<Link>
    ensures { result ≡ option_map ends (two_numbers largest_number text.now) }
{
    let (voter, module) = two_numbers(text, LARGEST_NUMBER)?;
    Some(Link {
        voter: voter as usize,
        module: module as usize,
    })
}

// The call that a letter names, with the numbers that follow it. Each number was held to its limit when it was read, so
// the casts lose nothing.
fn named_call(letter: char, rest: &[u8]) -> Option<Request>
    ensures { result ≡ named_call letter rest.now }
{
    match letter {
        'V' => Some(Request::AddVoter(one_number(rest, LARGEST_CODE)? as u16)),
        'M' => Some(Request::AddModule(one_number(rest, LARGEST_CODE)? as u16)),
        'L' => Some(Request::Link(link(rest)?)),
        'X' => Some(Request::Cut(link(rest)?)),
        'C' => match rest {
            [] => Some(Request::CountPatterns),
            _ => None,
        },
        'H' => Some(Request::LongestRepair(one_number(rest, LARGEST_NUMBER)? as u32)),
        _ => None,
    }
}

// The call that a line makes: a letter, and the numbers that it takes, each after one space.
pub fn parse(line: &[u8]) -> Option<Request>
    ensures { result ≡ request line.now }
{
    let [letter, rest @ ..] = line else {
        return None;
    };
    if line.len() > LONGEST_LINE {
        return None;
    }
    named_call(char::from(*letter), rest)
}
