// Cabinets are wired, cut and asked.
use crate::wirings::{MESH, link, set_of, wired};
use network::Trio;
use refusals::Refusal;
use std::test::Fail;
use wiring::Cell;

// The cell of these voter trios and module trios.
fn cell_of(voters: &[usize], modules: &[usize]) -> Cell {
    Cell {
        voters: set_of(voters),
        modules: set_of(modules),
    }
}

#[test]
fn cells_join_and_part(rt: HostRuntime) -> Result<(), Fail> {
    let mut cabinet = wired(4, 3, &MESH)?;
    assert_eq!(rt; cabinet.cell_count(), 1);
    assert_eq!(rt; cabinet.cell(0)?, cell_of(&[0, 1, 2, 3], &[0, 1, 2]));
    cabinet.cut(link(1, 1))?;
    assert_eq!(rt; cabinet.cell_count(), 2);
    assert_eq!(rt; cabinet.cell(0)?, cell_of(&[0, 1], &[0]));
    assert_eq!(rt; cabinet.cell(1)?, cell_of(&[2, 3], &[1, 2]));
    assert_eq!(rt; cabinet.cell_of(Trio::Module(1)), Ok(1));
    assert_eq!(rt; cabinet.is_linked(link(1, 1)), Ok(false));
    Ok(())
}

#[test]
fn cells_are_numbered_by_their_first_trio(rt: HostRuntime) -> Result<(), Fail> {
    let cabinet = wired(3, 3, &[(1, 2), (2, 2)])?;
    assert_eq!(rt; cabinet.cell_count(), 4);
    assert_eq!(rt; cabinet.cell_of(Trio::Voter(0)), Ok(0));
    assert_eq!(rt; cabinet.cell_of(Trio::Voter(2)), Ok(1));
    assert_eq!(rt; cabinet.cell_of(Trio::Module(2)), Ok(1));
    assert_eq!(rt; cabinet.cell_of(Trio::Module(0)), Ok(2));
    assert_eq!(rt; cabinet.cell_of(Trio::Module(1)), Ok(3));
    assert_eq!(rt; cabinet.cell(4), Err(Refusal::NoCell));
    Ok(())
}

#[test]
fn a_thirteenth_voter_does_not_fit(rt: HostRuntime) -> Result<(), Fail> {
    let mut cabinet = wired(16, 15, &[])?;
    assert_eq!(rt; cabinet.add_voter(0), Err(Refusal::VotersFull));
    assert_eq!(rt; cabinet.add_module(0), Err(Refusal::ModulesFull));
    for v in 0..12 {
        cabinet.link(link(v, 0))?;
    }
    assert_eq!(rt; cabinet.link(link(12, 0)), Err(Refusal::CellTooWide));
    cabinet.cut(link(5, 0))?;
    cabinet.link(link(12, 0))?;
    assert_eq!(rt; cabinet.link(link(5, 0)), Err(Refusal::CellTooWide));
    assert_eq!(rt; cabinet.link(link(5, 1)), Ok(()));
    Ok(())
}

#[test]
fn parts_are_changed_and_absent_trios_refused(rt: HostRuntime) -> Result<(), Fail> {
    let mut cabinet = wired(2, 1, &[(1, 0)])?;
    cabinet.change_part(Trio::Voter(1), 65535)?;
    cabinet.change_part(Trio::Module(0), 7)?;
    assert_eq!(rt; cabinet.code(Trio::Voter(1)), Ok(65535));
    assert_eq!(rt; cabinet.code(Trio::Voter(0)), Ok(0));
    assert_eq!(rt; cabinet.code(Trio::Module(0)), Ok(7));
    assert_eq!(rt;
        cabinet.change_part(Trio::Module(1), 7),
        Err(Refusal::NoModule)
    );
    assert_eq!(rt; cabinet.is_linked(link(2, 1)), Err(Refusal::NoVoter));
    assert_eq!(rt; cabinet.cut(link(0, 0)), Err(Refusal::NoLink));
    assert_eq!(rt; Refusal::NoCell.number(), 8);
    Ok(())
}
