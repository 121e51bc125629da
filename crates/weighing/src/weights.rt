// The weights of a trio.

mod alike;
mod positions;
mod shares;

// One weight for each position.
#[derive(Clone, Copy, PartialEq, Eq, Debug)]
pub struct PerPosition<W> {
    pub a: W,
    pub b: W,
    pub c: W,
}

// The weights of a trio: whole, and faulty at one position.
#[derive(Clone, Copy, PartialEq, Eq, Debug)]
pub struct Weights<W> {
    pub whole: W,
    pub faulty: PerPosition<W>,
}
