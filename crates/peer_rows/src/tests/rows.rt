// Worked rows.

use super::documents::{
    CHANGE_OF_AGENTS, FALSE_MAJORITY, LATE_BLOCK, ONE_APP_CHANGES, ONE_OF_TWO_AGENTS,
    REPEATED_VOTE, SCATTERED, THRESHOLD_IN_FORCE, UNFIT_VOTES,
};
use peer_tables::{answered, in_force};
use std::test::Fail;

#[test]
fn worked_rows_are_answered(rt: HostRuntime) -> Result<(), Fail> {
    let alloc = rt.alloc();
    for (document, me, table) in [
        // Blocks behind a late one complete at once.
        (
            LATE_BLOCK,
            0,
            "\
o1 sends 2 => Counted
o1 sends 1 => Counted; runs 1 1; runs 2 1; sends 1 1=6,4; sends 2 1=2,8
peer p1 completed 2
block 1 736451c8f7eecfcc365addef3327c516f9701079c13dbfe32ef9e21eb649ed19
txn 1 6,4
block 2 eb78ff7563f85f08c1c88491e21a9f7e612303067fd7fada58c39040a73b45a1
txn 1 2,8
state [2, 8]
",
        ),
        (
            LATE_BLOCK,
            1,
            "\
p1 votes 2 1=2,8 => Counted
p1 votes 1 1=6,4 => Counted
o1 sends 2 => Counted
o1 sends 1 => Counted
peer p2 completed 2
block 1 736451c8f7eecfcc365addef3327c516f9701079c13dbfe32ef9e21eb649ed19
txn 1 6,4
block 2 eb78ff7563f85f08c1c88491e21a9f7e612303067fd7fada58c39040a73b45a1
txn 1 2,8
state [2, 8]
",
        ),
        // Positions run once what they follow is known.
        (
            SCATTERED,
            0,
            "\
o1 sends 1 => Counted; runs 1 1; sends 1 1=1
p2 votes 1 2=1 => Counted; runs 1 3; sends 1 3=1
peer p1 completed 1
block 1 7f0d149996b20faf83bb9a6e4aadf74455e6a23f016e7f30d744d0aa798967e0
txn 1 1
txn 2 1
txn 3 1
state [1, 1, 1, 1]
",
        ),
        (
            SCATTERED,
            1,
            "\
o1 sends 1 => Counted
p1 votes 1 1=1 => Counted; runs 1 2; sends 1 2=1
peer p2 completed 0
state [1, 0, 0, 0]
",
        ),
        (
            SCATTERED,
            2,
            "\
o1 sends 1 => Counted
p1 votes 1 3=1 => Counted
p2 votes 1 2=1 => Counted
peer p3 completed 0
state [1, 0, 0, 0]
",
        ),
        (
            SCATTERED,
            2,
            "\
o1 sends 1 => Counted
p1 votes 1 3=1 => Counted
p2 votes 1 2=1 => Counted
p1 votes 1 1=1 => Counted
peer p3 completed 1
block 1 7f0d149996b20faf83bb9a6e4aadf74455e6a23f016e7f30d744d0aa798967e0
txn 1 1
txn 2 1
txn 3 1
state [1, 1, 1, 1]
",
        ),
        // A repeated vote counts once.
        (
            REPEATED_VOTE,
            0,
            "\
o1 sends 1 => Counted; runs 1 1 2 3; sends 1 1=9,1 2=7,3 3=4,6
peer p1 completed 0
state [10, 0]
",
        ),
        (
            REPEATED_VOTE,
            2,
            "\
o1 sends 1 => Counted
p1 votes 1 1=9,1 2=7,3 3=4,6 => Counted
p1 votes 1 1=9,1 2=7,3 3=4,6 => Repeat
p1 votes 1 1=9,1 2=7,3 3=4,6 => Repeat
p1 votes 1 1=9,1 2=7,3 3=4,6 => Repeat
p1 votes 1 1=9,1 2=7,3 3=4,6 => Repeat
peer p3 completed 0
state [10, 0]
",
        ),
        // One of two agents is enough.
        (
            ONE_OF_TWO_AGENTS,
            0,
            "\
o1 sends 1 => Counted; runs 1 1; sends 1 1=6,4
peer p1 completed 1
block 1 736451c8f7eecfcc365addef3327c516f9701079c13dbfe32ef9e21eb649ed19
txn 1 6,4
state [6, 4]
",
        ),
        (
            ONE_OF_TWO_AGENTS,
            2,
            "\
o1 sends 1 => Counted
p1 votes 1 1=6,4 => Counted
peer p3 completed 1
block 1 736451c8f7eecfcc365addef3327c516f9701079c13dbfe32ef9e21eb649ed19
txn 1 6,4
state [6, 4]
",
        ),
        // A peer halts where it ran otherwise than its agents.
        (
            FALSE_MAJORITY,
            0,
            "\
o1 sends 1 => Counted; runs 1 1; sends 1 1=6,4
p2 votes 1 1=0,10 => Counted
p3 votes 1 1=0,10 => Halted
p1 votes 1 1=6,4 => Halted
peer p1 completed 0
state [10, 0]
halted 1 1 writes [0, 1] ran 6,4 voted 0,10
",
        ),
        (
            FALSE_MAJORITY,
            3,
            "\
o1 sends 1 => Counted
p2 votes 1 1=0,10 => Counted
p3 votes 1 1=0,10 => Counted
p1 votes 1 1=6,4 => Counted
peer p4 completed 1
block 1 736451c8f7eecfcc365addef3327c516f9701079c13dbfe32ef9e21eb649ed19
txn 1 0,10
state [0, 10]
",
        ),
        // Unfit votes count for nothing.
        (
            UNFIT_VOTES,
            0,
            "\
o1 sends 1 => Counted; runs 1 1; sends 1 1=6,4
p3 votes 1 1=5 => Counted
p2 votes 1 1=0,10 => Counted
peer p1 completed 1
block 1 736451c8f7eecfcc365addef3327c516f9701079c13dbfe32ef9e21eb649ed19
txn 1 6,4
state [6, 4]
",
        ),
        (
            UNFIT_VOTES,
            3,
            "\
o1 sends 1 => Counted
p3 votes 1 1=5 => Counted
p2 votes 1 1=0,10 => Counted
peer p4 completed 0
state [10, 0]
",
        ),
        (
            UNFIT_VOTES,
            3,
            "\
o1 sends 1 => Counted
p3 votes 1 1=5 => Counted
p2 votes 1 1=0,10 => Counted
p1 votes 1 1=6,4 => Counted
peer p4 completed 1
block 1 736451c8f7eecfcc365addef3327c516f9701079c13dbfe32ef9e21eb649ed19
txn 1 6,4
state [6, 4]
",
        ),
        // Agents change with a configuration.
        (
            CHANGE_OF_AGENTS,
            0,
            "\
o1 sends 1 => Counted; runs 1 1; sends 1 1=6,4
o1 sends 2 => Counted
o1 sends 3 => Counted
p1 votes 1 1=6,4 => Repeat
p2 votes 3 1=2,8 => Counted
peer p1 completed 3
block 1 736451c8f7eecfcc365addef3327c516f9701079c13dbfe32ef9e21eb649ed19
txn 1 6,4
block 2 e44fa4914a428afe38d263d20114ae20ce4a310828bd9e3f2cd39b5ff86c7e53
config 0 tau 1 agents [1]
block 3 4ec55aa3b442c0e5369d5faf9e954e67d24a724017e9e4e32a11d67fd9f7964c
txn 1 2,8
state [2, 8]
",
        ),
        (
            CHANGE_OF_AGENTS,
            1,
            "\
o1 sends 1 => Counted
o1 sends 2 => Counted
o1 sends 3 => Counted
p1 votes 1 1=6,4 => Counted; runs 3 1; sends 3 1=2,8
peer p2 completed 3
block 1 736451c8f7eecfcc365addef3327c516f9701079c13dbfe32ef9e21eb649ed19
txn 1 6,4
block 2 e44fa4914a428afe38d263d20114ae20ce4a310828bd9e3f2cd39b5ff86c7e53
config 0 tau 1 agents [1]
block 3 4ec55aa3b442c0e5369d5faf9e954e67d24a724017e9e4e32a11d67fd9f7964c
txn 1 2,8
state [2, 8]
",
        ),
    ] {
        assert_eq!(rt; answered(&rt, alloc, document, me, table)?.as_str(), table);
    }
    Ok(())
}

#[test]
fn agents_and_thresholds_are_those_in_force(rt: HostRuntime) -> Result<(), Fail> {
    let alloc = rt.alloc();
    for (document, rows, app, force) in [
        (
            CHANGE_OF_AGENTS,
            "o1 sends 2\no1 sends 3",
            0,
            "tau 1 agents [0]",
        ),
        (
            CHANGE_OF_AGENTS,
            "o1 sends 2\no1 sends 1",
            0,
            "tau 1 agents [1]",
        ),
        (ONE_APP_CHANGES, "o1 sends 1", 0, "tau 1 agents [0]"),
        (ONE_APP_CHANGES, "o1 sends 1", 1, "tau 1 agents [1]"),
        (THRESHOLD_IN_FORCE, "o1 sends 2", 0, "tau 1 agents [0]"),
        (
            THRESHOLD_IN_FORCE,
            "o1 sends 1\no1 sends 2",
            0,
            "tau 2 agents [0, 1]",
        ),
    ] {
        let found = in_force(&rt, alloc, document, rows, app)?;
        assert_eq!(rt; found.as_str(), force, "application {app} behind {rows}");
    }
    Ok(())
}
