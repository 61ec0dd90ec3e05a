//! Claims on one board, in one thread, where the order of the answers is fixed.

use sq_claims::Board;
use std::test::Fail;

#[test]
fn two_passes_claim_three_tasks(rt: HostRuntime) -> Result<(), Fail> {
    let (board, mut passes) = Board::new(rt.alloc(), 3, 2)?;
    let answers = [
        board.claim(&mut passes[0]),
        board.claim(&mut passes[1]),
        board.claim(&mut passes[0]),
        board.claim(&mut passes[0]),
        board.claim(&mut passes[1]),
    ];
    let claimed = board.close(passes);
    assert!(rt; answers == [Some(0), Some(1), Some(2), None, None]);
    assert!(rt; claimed == 3);
    Ok(())
}

#[test]
fn a_board_that_is_left_early_counts_its_claims(rt: HostRuntime) -> Result<(), Fail> {
    let (board, mut passes) = Board::new(rt.alloc(), 3, 1)?;
    let first = board.claim(&mut passes[0]);
    let second = board.claim(&mut passes[0]);
    let claimed = board.close(passes);
    assert!(rt; (first, second) == (Some(0), Some(1)));
    assert!(rt; claimed == 2);
    Ok(())
}

#[test]
fn a_board_without_tasks_gives_none(rt: HostRuntime) -> Result<(), Fail> {
    let (board, mut passes) = Board::new(rt.alloc(), 0, 1)?;
    let answer = board.claim(&mut passes[0]);
    let claimed = board.close(passes);
    assert!(rt; answer == None && claimed == 0);
    Ok(())
}
