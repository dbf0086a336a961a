// Messages that tell right readings from wrong ones.

use super::documents::{
    ACCEPTED_IS_FIRST_TO_REACH, AGREED_IS_FIRST_TO_REACH, HALTED_CHANGES_NOTHING,
    LOWEST_POSITION_IS_NAMED, ONE_APP_CHANGES, OWN_VOTE_BEHIND_EARLIER, OWN_VOTE_BEHIND_ITS_CAUSE,
    RUNS_IN_ORDER_OF_READINESS, THRESHOLD_IN_FORCE,
};
use peer_tables::answered;
use std::test::Fail;

#[test]
fn each_reading_is_the_right_one(rt: HostRuntime) -> Result<(), Fail> {
    let alloc = rt.alloc();
    for (document, me, table) in [
        // The own vote comes behind earlier ones.
        (
            OWN_VOTE_BEHIND_EARLIER,
            0,
            "\
p2 votes 1 1=0,10 => Counted
o1 sends 1 => Halted; runs 1 1; sends 1 1=6,4
peer p1 completed 0
state [10, 0]
halted 1 1 writes [0, 1] ran 6,4 voted 0,10
",
        ),
        // The own vote comes behind its cause.
        (
            OWN_VOTE_BEHIND_ITS_CAUSE,
            0,
            "\
o1 sends 1 => Counted
p2 votes 1 1=1 2=7 => Halted; runs 1 2; sends 1 2=1
peer p1 completed 0
state [1, 0, 0, 0, 0]
halted 1 2 writes [2] ran 1 voted 7
",
        ),
        // The threshold is the one in force.
        (
            THRESHOLD_IN_FORCE,
            0,
            "\
o1 sends 1 => Counted
o1 sends 2 => Counted; runs 2 1; sends 2 1=6,4
peer p1 completed 1
block 1 ff58ad78a61d30edd4631cbe50ffdd018272711ec9c2d791751211cc9db275eb
config 0 tau 2 agents [0, 1]
state [10, 0]
",
        ),
        // One application changes, and the other doesn't.
        (
            ONE_APP_CHANGES,
            0,
            "\
o1 sends 1 => Counted
o1 sends 2 => Counted; runs 2 1; sends 2 1=1
peer p1 completed 2
block 1 e54b989f0a889e4dbf16d91fceba111ec12b9fab8dafef2caee514f3420988eb
config 1 tau 1 agents [1]
block 2 126ac16e41f9f2ca48e95186aae5a284e94241cf8c786076e2731b79fda082fa
txn 1 1
state [1, 1, 0, 0, 0]
",
        ),
        // A halted peer changes nothing.
        (
            HALTED_CHANGES_NOTHING,
            0,
            "\
o1 sends 1 => Counted; runs 1 1 2; sends 1 1=6,4 2=1
p2 votes 1 2=7 => Counted
p3 votes 1 2=7 => Halted
p2 votes 1 1=0,10 => Halted
p3 votes 1 1=0,10 => Halted
peer p1 completed 0
state [10, 0, 1, 0]
halted 1 2 writes [3] ran 1 voted 7
",
        ),
        // The lowest position is named.
        (
            LOWEST_POSITION_IS_NAMED,
            0,
            "\
p2 votes 1 2=7 => Counted
p2 votes 1 1=0,10 => Counted
o1 sends 1 => Halted; runs 1 1 2; sends 1 1=6,4 2=1
peer p1 completed 0
state [10, 0, 1, 0]
halted 1 1 writes [0, 1] ran 6,4 voted 0,10
",
        ),
        // The first outcome to reach the threshold is agreed.
        (
            AGREED_IS_FIRST_TO_REACH,
            5,
            "\
p2 votes 1 1=1,9 => Counted
p3 votes 1 1=0,10 => Counted
p4 votes 1 1=0,10 => Counted
p5 votes 1 1=1,9 => Counted
o1 sends 1 => Counted
peer p6 completed 1
block 1 736451c8f7eecfcc365addef3327c516f9701079c13dbfe32ef9e21eb649ed19
txn 1 0,10
state [0, 10]
",
        ),
        // The first content to reach the quorum is accepted.
        (
            ACCEPTED_IS_FIRST_TO_REACH,
            0,
            "\
o1 sends 1 => Counted
o3 sends 2 first => Counted
o2 sends 1 => Counted
o4 sends 2 first => Counted
p2 votes 1 1=6,4 2=5,5 => Counted
peer p1 completed 1
block 1 11bc1fbda49511a6e81ae5db496dd69da54e2a78c471b35aec21778c51863ddf
txn 1 6,4
txn 2 5,5
state [5, 5]
",
        ),
        // Positions run in order of readiness.
        (
            RUNS_IN_ORDER_OF_READINESS,
            0,
            "\
o1 sends 1 => Counted; runs 1 3; sends 1 3=3
p2 votes 1 1=2 => Counted; runs 1 2; sends 1 2=2
p1 votes 1 3=3 => Repeat
p2 votes 1 4=3 => Counted
peer p1 completed 1
block 1 cd4341c13459495503e1640c42ea98dc5d79c98c4e7b502e18bb60eefd922adf
txn 1 2
txn 2 2
txn 3 3
txn 4 3
state [2, 2, 3, 3, 0, 0]
",
        ),
    ] {
        assert_eq!(rt; answered(&rt, alloc, document, me, table)?.as_str(), table);
    }
    Ok(())
}
