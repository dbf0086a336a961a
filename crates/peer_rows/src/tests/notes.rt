// The five notes of a message.

use super::documents::NOTES;
use peer_tables::answered;
use std::test::Fail;

#[test]
fn each_note_comes_where_it_holds(rt: HostRuntime) -> Result<(), Fail> {
    let alloc = rt.alloc();
    let table = "\
o3 sends 1 bare => WrongGraph
o3 sends 1 => Counted
o3 sends 1 => Repeat
o3 sends 1 bare => WrongGraph
o4 sends 1 => Stranger
p2 sends 1 => Stranger
p2 sends 1 bare => Stranger
o1 votes 1 1=6,4 => Stranger
p4 votes 1 1=6,4 => Stranger
p1 votes 1 1=6,4 => Repeat
p2 votes 1 1=0,10 => Counted
p2 votes 1 1=6,4 => Repeat
p2 votes 1 1=6,4 2=5,5 => Counted
p2 votes 7 9=1 => Counted
o1 sends 1 => Counted; runs 1 1 2; sends 1 1=6,4 2=5,5
p3 votes 1 1=0,10 => Halted
o2 sends 1 => Halted
o4 sends 1 => Halted
o3 sends 1 bare => Halted
p4 votes 1 1=6,4 => Halted
peer p1 completed 0
state [10, 0]
halted 1 1 writes [0, 1] ran 6,4 voted 0,10
evidence p2 1 1
";
    assert_eq!(rt; answered(&rt, alloc, NOTES, 0, table)?.as_str(), table);
    Ok(())
}
