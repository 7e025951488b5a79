//! Two drawers draw a board's numbers in two threads.

ghost use Rattle.std.specs.Prelude.{◌≤◌, ◌<◌, ◌+◌, length};
ghost use Rattle.job_board.specs.Drawers.{IsSplit};

use job_board::{Board, Drawer};
use std::sync::Wait;
use std::test::Fail;
use std::thread;

/// What a drawer drew: how many numbers, and their sum.
#[derive(Clone, Copy, Drop)]
struct Sum {
    pub count: u32,
    pub sum: u32,
}

/// Draws until no number is left.
fn draw_all<R: Wait>(rt: &R, board: &Board, mut drawer: Drawer) -> (Drawer, Sum)
    requires { IsSplit board.now drawer }
    ensures { IsSplit board.now result.0 }
{
    let mut all = Sum { count: 0, sum: 0 };
    for _ in rt.forever() {
        match board.draw(rt, &mut drawer) {
            Some(number) => {
                all.count = all.count.wrapping_add(1);
                all.sum = all.sum.wrapping_add(number);
            }
            None => break,
        }
    }
    (drawer, all)
}

#[test]
fn two_drawers_draw_each_number_once(rt: HostRuntime) -> Result<(), Fail> {
    let alloc = rt.alloc();
    let (board, mut lead) = Board::new(&rt, alloc, &[1, 2, 4])?;
    let first = board.split(&mut lead)?;
    let second = board.split(&mut lead)?;
    let shared = &board;
    let ((first, one), (second, other)) = thread::join(
        &rt,
        move ||
            requires { IsSplit shared.now first }
            ensures { IsSplit shared.entry.now result.0 }
        { draw_all(&rt, shared, first) },
        move ||
            requires { IsSplit shared.now second }
            ensures { IsSplit shared.entry.now result.0 }
        { draw_all(&rt, shared, second) },
    );
    board.join(&mut lead, first);
    board.join(&mut lead, second);
    assert_eq!(rt; one.count.wrapping_add(other.count), 3);
    assert_eq!(rt; one.sum.wrapping_add(other.sum), 7);
    assert_eq!(rt; board.settle(&rt, lead), 0);
    Ok(())
}
