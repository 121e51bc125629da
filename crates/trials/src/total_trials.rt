// Totals on several scales.
use crate::Residue;
use crate::wirings::{MESH, wired};
use algebra::Weight;
use matrices::FaultMatrix;
use refusals::Refusal;
use scales::{Count, Hours};
use std::test::Fail;
use weighing::{PerPosition, Weights};

// No hours for a whole trio, and these for a faulty one.
fn repair(a: u32, b: u32, c: u32) -> Weights<Hours> {
    Weights {
        whole: Hours(Some(0)),
        faulty: PerPosition {
            a: Hours(Some(a)),
            b: Hours(Some(b)),
            c: Hours(Some(c)),
        },
    }
}

#[test]
fn patterns_are_counted_on_two_scales(rt: HostRuntime) -> Result<(), Fail> {
    let cabinet = wired(4, 3, &MESH)?;
    let counts = Weights::alike(Count::unit(), Count::unit());
    let residues = Weights::alike(Residue::unit(), Residue::unit());
    assert_eq!(rt; cabinet.total(&[counts; 7])?, Count { n: 760 });
    assert_eq!(rt; cabinet.total(&[residues; 7])?, Residue { n: 81 });
    assert_eq!(rt; cabinet.total(&[counts; 6]), Err(Refusal::WeightsMismatch));
    assert_eq!(rt; cabinet.total(&[counts; 8]), Err(Refusal::WeightsMismatch));
    assert_eq!(rt; Refusal::WeightsMismatch.number(), 9);
    Ok(())
}

#[test]
fn a_linked_pair_in_hours_and_in_faults(rt: HostRuntime) -> Result<(), Fail> {
    let cabinet = wired(1, 1, &[(0, 0)])?;
    assert_eq!(rt;
        cabinet.total(&[repair(1, 2, 6), repair(5, 1, 1)])?,
        Hours(Some(7))
    );
    let unit = FaultMatrix::unit();
    let faults = cabinet.total(&[
        Weights::alike(unit, FaultMatrix::voter_fault()),
        Weights::alike(unit, FaultMatrix::module_fault()),
    ])?;
    assert_eq!(rt; faults.entry(0, 0), Some(1));
    assert_eq!(rt; faults.entry(0, 1), Some(3));
    assert_eq!(rt; faults.entry(1, 0), Some(3));
    assert_eq!(rt; faults.entry(1, 1), Some(3));
    Ok(())
}
