// The trios of a table, one by one.
ghost use Rattle.std.specs.Prelude.{◌≡◌, [], ◌∷◌, ◌++◌, length, if◌then◌else◌, is_some, Some, None, nat_lt, slice_index, slice_set};
ghost use Rattle.wiring.specs.Tables.{codes};

use super::{TrioRecord, TrioTable};

impl TrioRecord {
    // Another part is put in.
    pub fn relabel(&mut self, code: u16)
        ensures { self.new.code ≡ code }
    {
        self.code = code;
    }
}

impl<const N: usize> TrioTable<N> {
    // The code of trio `i`.
    pub fn code(&self, i: usize) -> Option<u16>
        ensures { result ≡ (if nat_lt i (length (codes self.now)) then Some (slice_index (codes self.now) i) else None) }
    {
        if i >= self.count {
            return None;
        }
        Some(self.trios[i].code)
    }

    // One trio more, at the end; answers its number, or nothing where the table is full.
    pub fn push(&mut self, code: u16) -> Option<usize>
        ensures value { result ≡ (if nat_lt (length (codes self.old)) N then Some (length (codes self.old)) else None) }
        ensures after { codes self.new ≡ (if is_some result then codes self.old ++ (code ∷ []) else codes self.old) }
    {
        let number = self.count;
        if number >= N {
            return None;
        }
        self.trios[number] = TrioRecord { code };
        self.count += 1;
        Some(number)
    }

    // Another code for trio `i`; nothing is done where there is no such trio.
    pub fn relabel(&mut self, i: usize, code: u16) -> Option<()>
        ensures value { result ≡ (if nat_lt i (length (codes self.old)) then Some tt else None) }
        ensures after { codes self.new ≡ slice_set (codes self.old) i code }
    {
        if i >= self.count {
            return None;
        }
        let trio = &mut self.trios[i];
        trio.relabel(code);
        Some(())
    }
}
