// What no clause says: that calls succeed where memory lasts.
use rl_deadline::Deadlines;
use rl_ids::Moment;
use std::test::Fail;

#[test]
fn what_is_due_comes_in_order_of_moment_then_key(rt: HostRuntime) -> Result<(), Fail> {
    let mut deadlines = Deadlines::new(rt.alloc());
    deadlines.set(3, Moment(20))?;
    deadlines.set(2, Moment(20))?;
    deadlines.set(1, Moment(30))?;
    deadlines.set(4, Moment(21))?;
    deadlines.set(5, Moment(1))?;
    deadlines.set(1, Moment(10))?;
    deadlines.cancel(5);
    deadlines.cancel(9);
    let due = deadlines.due(rt.alloc(), Moment(20))?;
    assert_eq!(rt; due.as_slice(), [1, 2, 3].as_slice());
    Ok(())
}
