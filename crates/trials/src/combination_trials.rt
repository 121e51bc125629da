// The combinations of a cell with four voter trios.
use crate::wirings::{MESH, link, set_of, wired};
use algebra::Weight;
use scales::Count;
use sets::TrioSet;
use std::test::Fail;
use weighing::{Weights, combination_of};
use wiring::Links;

// A combination: its voters, the ways that just these can be faulty, and the modules that they feed.
struct Row(&'static [usize], u64, &'static [usize]);

// The combinations in order, from the first that is not empty.
const ROWS: [Row; 15] = [
    Row(&[0], 3, &[0]),
    Row(&[1], 3, &[0, 1]),
    Row(&[0, 1], 3, &[0, 1]),
    Row(&[2], 3, &[1, 2]),
    Row(&[0, 2], 9, &[0, 1, 2]),
    Row(&[1, 2], 3, &[0, 1, 2]),
    Row(&[0, 1, 2], 3, &[0, 1, 2]),
    Row(&[3], 3, &[1, 2]),
    Row(&[0, 3], 9, &[0, 1, 2]),
    Row(&[1, 3], 3, &[0, 1, 2]),
    Row(&[0, 1, 3], 3, &[0, 1, 2]),
    Row(&[2, 3], 3, &[1, 2]),
    Row(&[0, 2, 3], 9, &[0, 1, 2]),
    Row(&[1, 2, 3], 3, &[0, 1, 2]),
    Row(&[0, 1, 2, 3], 3, &[0, 1, 2]),
];

// Weights under which a total counts the patterns with just these voters and no module faulty.
fn just_faulty(voters: TrioSet) -> [Weights<Count>; 7] {
    let mut weights = [Weights::alike(Count::unit(), Count::nothing()); 7];
    for (v, entry) in weights.iter_mut().enumerate() {
        if voters.contains(v) {
            *entry = Weights::alike(Count::nothing(), Count::unit());
        }
    }
    weights
}

fn linked(pairs: &[(usize, usize)]) -> Links {
    pairs.iter().fold(
        Links::none(),
        |links, pair| links.with(link(pair.0, pair.1)),
    )
}

#[test]
fn ways_and_fed_modules(rt: HostRuntime) -> Result<(), Fail> {
    let cabinet = wired(4, 3, &MESH)?;
    let links = linked(&MESH);
    let voters = cabinet.cell(0)?.voters;
    for (i, row) in ROWS.iter().enumerate() {
        let chosen = combination_of(voters, i + 1);
        assert_eq!(rt; chosen, set_of(row.0));
        assert_eq!(rt; cabinet.total(&just_faulty(chosen))?, Count { n: row.1 });
        assert_eq!(rt; links.fed_by(chosen), set_of(row.2));
    }
    Ok(())
}
