// The trios of one kind, in order of adding.
ghost use Rattle.std.specs.Prelude.{◌≡◌, ◌≤◌, length};

mod counts;
mod entries;

// What is kept of a trio: the code of the part that its three copies are.
#[derive(Clone, Copy, PartialEq, Eq, Debug, Default)]
pub struct TrioRecord {
    pub code: u16,
}

// Up to N trios, the first `count` of the array. A vector of fixed capacity would not be `Copy`.
#[derive(Clone, Copy, PartialEq, Eq, Debug)]
pub struct TrioTable<const N: usize> {
    trios: [TrioRecord; N],
    count: usize,
    ghost long: { length trios ≡ N },
    ghost fits: { count ≤ N },
}
