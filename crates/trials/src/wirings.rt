// Cabinets, sets and weights for the trials.
use cabinet::Cabinet;
use network::Link;
use refusals::Refusal;
use sets::TrioSet;

// A link between these trios.
pub(crate) fn link(voter: usize, module: usize) -> Link {
    Link { voter, module }
}

// The links between four voter trios and three module trios, as pairs, since a constant cannot call a function.
pub(crate) const MESH: [(usize, usize); 7] = [
    (0, 0),
    (1, 0),
    (1, 1),
    (2, 1),
    (2, 2),
    (3, 1),
    (3, 2),
];

// A cabinet with so many trios of each kind and these links.
pub(crate) fn wired(
    voters: u16,
    modules: u16,
    links: &[(usize, usize)],
) -> Result<Cabinet, Refusal> {
    let mut cabinet = Cabinet::new();
    for v in 0..voters {
        cabinet.add_voter(v)?;
    }
    for m in 0..modules {
        cabinet.add_module(m)?;
    }
    for (voter, module) in links.iter().copied() {
        cabinet.link(link(voter, module))?;
    }
    Ok(cabinet)
}

// The set of these numbers.
pub(crate) fn set_of(members: &[usize]) -> TrioSet {
    members.iter().fold(TrioSet::empty(), |set, i| set.with(*i))
}
