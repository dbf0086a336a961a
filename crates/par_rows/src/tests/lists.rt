//! Streams, schedules, sums, contracts and documents at their greatest length.

use super::*;

// The stream's items, requests and configurations are counted, each before its keys.
#[test]
fn long_streams(rt: HostRuntime) -> Result<(), Fail> {
    let wrong = wrong_row(&rt, rt.alloc(), "graph", BASE, LONG_STREAMS)?;
    assert_eq!(rt; wrong.as_str(), "");
    Ok(())
}

const LONG_STREAMS: &str = "},'cut',{ -> },<8189 times 'cut'>,{ => accepted
},'cut',{ -> },<8190 times 0>,{ => limit items 8192
},'cut',{ -> },<4094 times {'client':'c','app':'a','op':'o','args':[],'reads':[],'writes':[]}>,{ => accepted
},'cut',{ -> },<4095 times {'client':'c','app':'a','op':'o','args':[],'reads':[],'writes':[]}>,{ => limit transactions 4096
},'cut',{ -> },<4094 times {'client':'c','app':'a','op':'o','args':[],'reads':[],'writes':[]}>,{},{ => field stream[4095].client
},'cut',{ -> },<4095 times {'client':'c','app':'a','op':'o','args':[],'reads':[],'writes':[]}>,{},{ => limit transactions 4096
},'cut',{ -> },<255 times {'config':'bank','agents':['p1'],'tau':1}>,{ => accepted
},'cut',{ -> },<256 times {'config':'bank','agents':['p1'],'tau':1}>,{ => limit configs 256
},'cut',{ -> },<255 times {'config':'bank','agents':['p1'],'tau':1}>,{'config':0},{ => field stream[256].config
},'cut',{ -> },<256 times {'config':'bank','agents':['p1'],'tau':1}>,{'config':0},{ => limit configs 256";

// The schedule's events, its `all` events and false messages are counted, each before its other keys.
#[test]
fn long_schedules(rt: HostRuntime) -> Result<(), Fail> {
    let wrong = wrong_row(&rt, rt.alloc(), "graph", BASE, LONG_SCHEDULES)?;
    assert_eq!(rt; wrong.as_str(), "");
    Ok(())
}

const LONG_SCHEDULES: &str =
    "{'do':'all'} -> <65533 times {'do':'deliver','msg':1,'to':'p1'}> => accepted
{'do':'all'} -> <65534 times 0> => limit schedule 65536
{'do':'all'} -> <8 times {'do':'all'}> => accepted
{'do':'all'} -> <9 times {'do':'all'}> => limit all 8
{'do':'all'} -> <7 times {'do':'all'}>,{'do':'all','x':1} => field schedule[8].x
{'do':'all'} -> <8 times {'do':'all'}>,{'do':'all','x':1} => limit all 8
{'do':'all'} -> <1022 times {'do':'commit','from':'p2','block':1,'votes':[]}> => accepted
{'do':'all'} -> <1023 times {'do':'commit','from':'p2','block':1,'votes':[]}> => limit false 1024
{'do':'all'} -> <1023 times {'do':'commit','from':'p2','block':1,'votes':[]}>,{'do':'block'} => field schedule[1024].from
{'do':'all'} -> <1024 times {'do':'commit','from':'p2','block':1,'votes':[]}>,{'do':'block'} => limit false 1024
{'do':'all'} -> <1024 times {'do':'commit','from':'p2','block':1,'votes':[]}>,{'do':'commit','x':1} => limit false 1024
{'do':'all'} -> <1024 times {'do':'commit','from':'p2','block':1,'votes':[]}>,{'do':'comit'} => field schedule[1025].do";

// The transactions of all false blocks are at most 16,384; the document's own list comes last.
#[test]
fn sums_of_transactions(rt: HostRuntime) -> Result<(), Fail> {
    let wrong = wrong_row(&rt, rt.alloc(), "graph", BASE, SUMS_OF_TRANSACTIONS)?;
    assert_eq!(rt; wrong.as_str(), "");
    Ok(())
}

const SUMS_OF_TRANSACTIONS: &str =
    "{'do':'all'} -> <129 times {'do':'block','from':'o2','number':1,'txns':[<127 times 1>]}> && 'txns':[1] -> 'txns':[1] => accepted
{'do':'all'} -> <128 times {'do':'block','from':'o2','number':1,'txns':[<128 times 1>]}> && 'txns':[1] -> 'txns':[1] => limit false_txns 16384
{'do':'all'} -> <129 times {'do':'block','from':'o2','number':1,'txns':[<127 times 1>]}> && 'txns':[1] -> 'txns':[0] => limit item 4
{'do':'all'} -> <129 times {'do':'block','from':'o2','number':1,'txns':[<127 times 1>]}> && 'txns':[1] -> 'txns':[1,0] => limit false_txns 16384
{'do':'all'} -> <128 times {'do':'block','from':'o2','number':1,'txns':[<128 times 1>]}> && 'txns':[1] -> 'txns':[0] => limit false_txns 16384
{'do':'all'} -> <128 times {'do':'block','from':'o2','number':1,'txns':[<128 times 1>]}> && 'txns':[1] -> 'txns':[] => limit txns 256";

// The votes of all false commits are at most 16,384; the document's own list of two or more comes last.
#[test]
fn sums_of_votes(rt: HostRuntime) -> Result<(), Fail> {
    let wrong = wrong_row(&rt, rt.alloc(), "graph", BASE, SUMS_OF_VOTES)?;
    assert_eq!(rt; wrong.as_str(), "");
    Ok(())
}

const SUMS_OF_VOTES: &str =
    "{'do':'all'} -> <180 times {'do':'commit','from':'p2','block':1,'votes':[<91 times {'txn':3,'out':[]}>]}> && [{'txn':1, -> [{'txn':1,'out':[]},{'txn':1,'out':[]},{'txn':1, => accepted
{'do':'all'} -> <180 times {'do':'commit','from':'p2','block':1,'votes':[<91 times {'txn':3,'out':[]}>]}> && [{'txn':1, -> [0,0,{'txn':1, => field schedule[182].votes[0]
{'do':'all'} -> <180 times {'do':'commit','from':'p2','block':1,'votes':[<91 times {'txn':3,'out':[]}>]}> && [{'txn':1, -> [0,0,0,{'txn':1, => limit false_votes 16384
{'do':'all'} -> <181 times {'do':'commit','from':'p2','block':1,'votes':[<91 times {'txn':3,'out':[]}>]}> && [{'txn':1, -> [{'txn':1, => limit false_votes 16384
{'do':'all'} -> <64 times {'do':'commit','from':'p2','block':1,'votes':[<256 times {'txn':3,'out':[]}>]}> && [{'txn':1, -> [{'txn':1, => limit false_votes 16384";

// A contract has at most 65,536 bytes.
#[test]
fn long_contracts(rt: HostRuntime) -> Result<(), Fail> {
    let text = spaced(rt.alloc(), 65507)?;
    let line = line_of_json(&rt, rt.alloc(), text.as_str())?;
    assert_eq!(rt; line.as_str(), "");
    let text = spaced(rt.alloc(), 65508)?;
    let line = line_of_json(&rt, rt.alloc(), text.as_str())?;
    assert_eq!(rt; line.as_str(), "parblock: refused: limit contract 65536\n");
    Ok(())
}

// The base document with so many blanks before its contract of 29 bytes.
fn spaced(alloc: Global, blanks: usize) -> Result<String, Trouble> {
    let new = format!(in alloc; "{}op f(r", " ".repeat(alloc, blanks)?)?;
    replaced(alloc, BASE, "op f(r", new.as_str())
}

// A document has at most 4,194,304 bytes.
#[test]
fn long_documents(rt: HostRuntime) -> Result<(), Fail> {
    let document = json(rt.alloc(), BASE)?;
    let mut bytes = vec![in rt.alloc(); b' '; 4_194_304]?;
    bytes.truncate(4_194_304usize.saturating_sub(document.len()));
    bytes.extend_from_slice(document.as_bytes())?;
    let line = line_of(&rt, rt.alloc(), bytes.as_slice())?;
    assert_eq!(rt; line.as_str(), "");
    bytes.push(b' ')?;
    let line = line_of(&rt, rt.alloc(), bytes.as_slice())?;
    assert_eq!(rt;
        line.as_str(),
        "parblock: refused: limit document 4194304\n"
    );
    Ok(())
}
