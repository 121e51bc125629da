// Sets of trio numbers. A cabinet has at most 16 trios of a kind, so a set is one word of 16 bits, and
// each method says by membership what it answers.
#![tactic(auto)]

ghost use Rattle.std.specs.Prelude.{◌≡◌, ℕ, false, not, ◌&&◌, ◌||◌, length, ◌==◌, nat_lt};
ghost use Rattle.sets.specs.Lists.{first_of};
ghost use Rattle.sets.specs.Sets.{member, members, overlap, to_come};
ghost use Rattle.std.specs.Iterator.{YieldsFirst, item_count};

// Some of the numbers 0 to 15: voter trios, or module trios, of one cabinet.
#[derive(Clone, Copy, PartialEq, Eq, Debug, Default)]
pub struct TrioSet {
    bits: u16,
}

impl TrioSet {
    pub fn empty() -> TrioSet
        ensures { (k : ℕ) → member result k ≡ false }
    {
        TrioSet { bits: 0 }
    }

    pub fn contains(self, i: usize) -> bool
        ensures { result ≡ member self i }
    {
        i < 16 && (self.bits >> i) & 1 == 1
    }

    // The set with `i` in it; a number from 16 on adds nothing.
    pub fn with(self, i: usize) -> TrioSet
        ensures { (k : ℕ) → member result k ≡ (member self k || (k == i && nat_lt i 16)) }
    {
        if i < 16 {
            TrioSet {
                bits: self.bits | (1 << i),
            }
        } else {
            self
        }
    }

    // The set without `i`.
    pub fn without(self, i: usize) -> TrioSet
        ensures { (k : ℕ) → member result k ≡ (member self k && not (k == i)) }
    {
        if i < 16 {
            TrioSet {
                bits: self.bits ^ (self.bits & (1 << i)),
            }
        } else {
            self
        }
    }

    pub fn union(self, other: TrioSet) -> TrioSet
        ensures { (k : ℕ) → member result k ≡ (member self k || member other k) }
    {
        TrioSet {
            bits: self.bits | other.bits,
        }
    }

    // The numbers in both sets.
    pub fn intersection(self, other: TrioSet) -> TrioSet
        ensures { (k : ℕ) → member result k ≡ (member self k && member other k) }
    {
        TrioSet {
            bits: self.bits & other.bits,
        }
    }

    // The numbers that are in this set only.
    pub fn difference(self, other: TrioSet) -> TrioSet
        ensures { (k : ℕ) → member result k ≡ (member self k && not (member other k)) }
    {
        TrioSet {
            bits: self.bits ^ (self.bits & other.bits),
        }
    }

    // The members that are less than `n`.
    pub fn below(self, n: usize) -> TrioSet
        ensures { (k : ℕ) → member result k ≡ (member self k && nat_lt k n) }
    {
        if n < 16 {
            TrioSet {
                bits: self.bits & ((1 << n) - 1),
            }
        } else {
            self
        }
    }

    // Whether some number is in both sets.
    pub fn meets(self, other: TrioSet) -> bool
        ensures { result ≡ overlap self other }
    {
        self.bits & other.bits != 0
    }

    // How many members there are.
    pub fn len(self) -> usize
        ensures { result ≡ length (members self) }
    {
        // std has no From<u32> for usize
        self.bits.count_ones() as usize
    }

    // The least member.
    pub fn first(self) -> Option<usize>
        ensures { result ≡ first_of (members self) }
    {
        if self.bits == 0 {
            return None;
        }
        // likewise
        Some(self.bits.trailing_zeros() as usize)
    }
}

// The members that are still to come, least first.
#[derive(Clone, Copy)]
pub struct Iter {
    left: TrioSet,
}

impl Iterator for Iter {
    type Item = usize;

    ghost next_gives = { YieldsFirst to_come };

    ghost remaining = { item_count to_come };

    fn next(&mut self) -> Option<usize> {
        let least = self.left.first()?;
        self.left = self.left.without(least);
        Some(least)
    }
}

impl IntoIterator for TrioSet {
    type Item = usize;

    type IntoIter = Iter;

    ghost into_iter_gives = { λ set iter. to_come iter ≡ members set };

    fn into_iter(self) -> Iter {
        Iter { left: self }
    }
}
