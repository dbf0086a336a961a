// Who said two different things.

use super::documents::{ACCEPTED_IS_FIRST_TO_REACH, FALSE_MAJORITY};
use peer_tables::answered;
use std::test::Fail;

#[test]
fn who_says_two_things_is_marked(rt: HostRuntime) -> Result<(), Fail> {
    let alloc = rt.alloc();
    for (document, me, table) in [
        // A halted peer hears no more lies.
        (
            FALSE_MAJORITY,
            0,
            "\
o1 sends 1 => Counted; runs 1 1; sends 1 1=6,4
p2 votes 1 1=0,10 => Counted
p3 votes 1 1=0,10 => Halted
p3 votes 1 1=6,4 => Halted
peer p1 completed 0
state [10, 0]
halted 1 1 writes [0, 1] ran 6,4 voted 0,10
",
        ),
        (
            FALSE_MAJORITY,
            3,
            "\
o1 sends 1 => Counted
p2 votes 1 1=0,10 => Counted
p3 votes 1 1=0,10 => Counted
p3 votes 1 1=6,4 => Repeat
peer p4 completed 1
block 1 736451c8f7eecfcc365addef3327c516f9701079c13dbfe32ef9e21eb649ed19
txn 1 0,10
state [0, 10]
evidence p3 1 1
",
        ),
        // The message that halts it is heard whole.
        (
            FALSE_MAJORITY,
            0,
            "\
o1 sends 1 => Counted; runs 1 1; sends 1 1=6,4
p2 votes 1 1=0,10 => Counted
p3 votes 1 1=0,10 1=6,4 => Halted
p2 votes 1 1=6,4 => Halted
peer p1 completed 0
state [10, 0]
halted 1 1 writes [0, 1] ran 6,4 voted 0,10
evidence p3 1 1
",
        ),
        (
            FALSE_MAJORITY,
            3,
            "\
o1 sends 1 => Counted
p2 votes 1 1=0,10 => Counted
p3 votes 1 1=0,10 1=6,4 => Counted
p2 votes 1 1=6,4 => Repeat
peer p4 completed 1
block 1 736451c8f7eecfcc365addef3327c516f9701079c13dbfe32ef9e21eb649ed19
txn 1 0,10
state [0, 10]
evidence p2 1 1
evidence p3 1 1
",
        ),
        // Votes that don't fit, of blocks that aren't accepted, and of no agent.
        (
            FALSE_MAJORITY,
            0,
            "\
p3 votes 1 1=5 => Counted
p3 votes 1 1=6,4 => Repeat
p4 votes 1 1=0,10 => Counted
p4 votes 1 1=6,4 => Repeat
p2 votes 7 200=- => Counted
p2 votes 7 200=1 => Repeat
peer p1 completed 0
state [10, 0]
evidence p2 7 200
evidence p3 1 1
evidence p4 1 1
",
        ),
        // A lie after the quorum is one.
        (
            FALSE_MAJORITY,
            3,
            "\
o1 sends 1 => Counted
p1 votes 1 1=6,4 => Counted
p2 votes 1 1=6,4 => Counted
p3 votes 1 1=6,4 => Counted
p3 votes 1 1=0,10 => Repeat
peer p4 completed 1
block 1 736451c8f7eecfcc365addef3327c516f9701079c13dbfe32ef9e21eb649ed19
txn 1 6,4
state [6, 4]
evidence p3 1 1
",
        ),
        // Equal repeats and wrong graphs are none, and marks rise.
        (
            ACCEPTED_IS_FIRST_TO_REACH,
            0,
            "\
p2 votes 2 2=1,9 => Counted
p2 votes 2 2=2,8 => Repeat
p2 votes 1 1=6,4 => Counted
p2 votes 1 1=6,4 => Repeat
p2 votes 1 2=5,5 => Counted
p2 votes 1 2=4,6 => Repeat
o4 sends 2 first => Counted
o4 sends 1 => Repeat
o3 sends 1 => Counted
o3 sends 1 bare => WrongGraph
o3 sends 1 => Repeat
o3 sends 2 => Counted
o1 sends 1 => Counted
o1 sends 2 first => Repeat
peer p1 completed 1
block 1 11bc1fbda49511a6e81ae5db496dd69da54e2a78c471b35aec21778c51863ddf
txn 1 6,4
txn 2 5,5
state [5, 5]
evidence o1 1
evidence o4 1
evidence p2 1 2
evidence p2 2 2
",
        ),
    ] {
        assert_eq!(rt; answered(&rt, alloc, document, me, table)?.as_str(), table);
    }
    Ok(())
}
