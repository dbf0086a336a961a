//! What both commands take, and what both refuse.

use super::*;

// Each document that means something is taken by both commands.
#[test]
fn each_meaning(rt: HostRuntime) -> Result<(), Fail> {
    let text = TRANSFER.replace(rt.alloc(), "\"", "'")?;
    for command in ["run", "graph"] {
        let wrong = wrong_row(&rt, rt.alloc(), command, text.as_str(), ROWS)?;
        assert_eq!(rt; wrong.as_str(), "", "{command}");
    }
    Ok(())
}

const ROWS: &str = "'full' -> 'full' => accepted
'full' -> 'raw' => accepted
'o1' -> 'o1','o2' => accepted
'peers':['p1'] -> 'peers':['p1','p2'] => accepted
'apps':[ -> 'apps':[{'name':'k','agents':['p1'],'tau':1,'clients':[],'contract':'op f(){}'}, => accepted
'faulty':[ -> 'faulty':['p1' => accepted
'faulty':[ -> 'faulty':['o1' => accepted
{'do':'all'} -> nothing => accepted
{'do':'all'} -> {'do':'all'},{'do':'all'} => accepted
{'do':'all'} -> {'do':'deliver','msg':1,'to':'p1'} => accepted
'stream':[ -> 'stream':[{'config':'bank','agents':['p1'],'tau':1}, => accepted
'kind':'full' -> 'kind':'raw','zz':1 => field zz
'faulty':[ -> 'faulty':['p1','p1' => double faulty[1]";
