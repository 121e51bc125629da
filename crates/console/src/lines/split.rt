// How an input is split into lines. A newline ends a line, and so does the end of the input; right after a newline it
// ends none.
ghost use Rattle.std.specs.Prelude.{◌≡◌, ℕ, List, [], ◌∷◌, ◌++◌, take};
ghost use Rattle.console.specs.Held.{Accepts, Ends, GoesOn, Keeps, held, left_over};
ghost use Rattle.console.specs.Requests.{request};
ghost use Rattle.console.specs.Splits.{Splits};

use super::{KEPT, LineBuffer, NEWLINE};

impl LineBuffer {
    // An empty line.
    pub fn new() -> LineBuffer
        ensures { Keeps [] result }
    {
        LineBuffer {
            bytes: [0; KEPT],
            len: 0,
        }
    }

    // Adds a byte to the line. Past the bytes that are kept it is dropped.
    fn push(&mut self, byte: u8)
        ensures { held self.new ≡ take 41 (held self.old ++ byte ∷ []) }
    {
        if self.len < KEPT {
            self.bytes[self.len] = byte;
            self.len += 1;
        }
    }

    // Takes in the next byte of the input. A newline ends the line, which is answered, and the next one begins.
    pub fn accept(&mut self, byte: u8) -> Option<LineBuffer>
        ensures cases { Accepts byte result self.old self.new }
        ensures splits { (input : List ℕ) (full : List (List ℕ)) (part : List ℕ) → Splits input full part → Keeps part self.old → GoesOn input full part byte result self.new }
    {
        if byte == NEWLINE {
            let line = *self;
            *self = LineBuffer::new();
            return Some(line);
        }
        self.push(byte);
        None
    }

    // The line that the end of the input ends, if there is one.
    pub fn finish(self) -> Option<LineBuffer>
        ensures value { result ≡ left_over self }
        ensures ends { (part : List ℕ) → Keeps part self → Ends part result }
    {
        if self.len == 0 { None } else { Some(self) }
    }

    // The bytes that are kept. They make the call that the whole line makes.
    pub fn as_slice(&self) -> &[u8]
        ensures value { result.now ≡ held self.now }
        ensures same_call { (line : List ℕ) → Keeps line self.now → request result.now ≡ request line }
    {
        &self.bytes[0..self.len]
    }
}
