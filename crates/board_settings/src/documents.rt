//! Documents whose blocks are run, and what each of their positions comes to.

use crate::calls::Want;

/// Left and right copy a to b to c to d in turn.
pub const RELAY: &str = r#"{"version":1,"kind":"full","cut":{"txns":256,"bytes":1048576},
 "records":[["a",1],["b",0],["c",0],["d",0]],"orderers":["o1"],"quorum":1,"peers":["p1","p2"],
 "apps":[{"name":"left","agents":["p1"],"tau":1,"clients":["c1"],
   "contract":"op set(r:record,n:number){r=n;}\nop pay(from:record,to:record,n:number){require from>=n;from=from-n;to=to+n;}\nop copy(from:record,to:record){to=from;}\nop maybe(r:record,n:number){if n>5{r=n;}}\nop inc(r:record){r=r+1;}\nop dec(r:record){r=r-1;}\nop div(r:record,n:number){r=r/n;}"},
  {"name":"right","agents":["p2"],"tau":1,"clients":["c1"],
   "contract":"op set(r:record,n:number){r=n;}\nop pay(from:record,to:record,n:number){require from>=n;from=from-n;to=to+n;}\nop copy(from:record,to:record){to=from;}\nop maybe(r:record,n:number){if n>5{r=n;}}\nop inc(r:record){r=r+1;}\nop dec(r:record){r=r-1;}\nop div(r:record,n:number){r=r/n;}"}],
 "stream":[{"client":"c1","app":"left","op":"copy","args":["a","b"],"reads":["a"],"writes":["b"]},
  {"client":"c1","app":"right","op":"copy","args":["b","c"],"reads":["b"],"writes":["c"]},
  {"client":"c1","app":"left","op":"copy","args":["c","d"],"reads":["c"],"writes":["d"]}],
 "faulty":[],"schedule":[{"do":"all"}]}"#;

/// What position 0 reads, position 1 writes.
pub const ANTI_DEPENDENCY: &str = r#"{"version":1,"kind":"full","cut":{"txns":256,"bytes":1048576},
 "records":[["a",1],["c",0]],"orderers":["o1"],"quorum":1,"peers":["p1"],
 "apps":[{"name":"k","agents":["p1"],"tau":1,"clients":["c1"],
   "contract":"op set(r:record,n:number){r=n;}\nop copy(from:record,to:record){to=from;}"}],
 "stream":[{"client":"c1","app":"k","op":"copy","args":["a","c"],"reads":["a"],"writes":["c"]},
  {"client":"c1","app":"k","op":"set","args":["a",5],"reads":[],"writes":["a"]}],
 "faulty":[],"schedule":[{"do":"all"}]}"#;

/// The same, where a writer doesn't wait for a reader.
pub const RAW_ANTI_DEPENDENCY: &str =
    r#"{"version":1,"kind":"raw","cut":{"txns":256,"bytes":1048576},
 "records":[["a",1],["c",0]],"orderers":["o1"],"quorum":1,"peers":["p1"],
 "apps":[{"name":"k","agents":["p1"],"tau":1,"clients":["c1"],
   "contract":"op set(r:record,n:number){r=n;}\nop copy(from:record,to:record){to=from;}"}],
 "stream":[{"client":"c1","app":"k","op":"copy","args":["a","c"],"reads":["a"],"writes":["c"]},
  {"client":"c1","app":"k","op":"set","args":["a",5],"reads":[],"writes":["a"]}],
 "faulty":[],"schedule":[{"do":"all"}]}"#;

/// Two writers of one record, one that aborts, and a reader.
pub const WRITERS: &str = r#"{"version":1,"kind":"raw","cut":{"txns":256,"bytes":1048576},
 "records":[["a",1],["b",0],["c",0]],"orderers":["o1"],"quorum":1,"peers":["p1"],
 "apps":[{"name":"k","agents":["p1"],"tau":1,"clients":["c1"],
   "contract":"op set(r:record,n:number){r=n;}\nop pay(from:record,to:record,n:number){require from>=n;from=from-n;to=to+n;}\nop copy(from:record,to:record){to=from;}"}],
 "stream":[{"client":"c1","app":"k","op":"set","args":["a",4],"reads":[],"writes":["a"]},
  {"client":"c1","app":"k","op":"set","args":["a",9],"reads":[],"writes":["a"]},
  {"client":"c1","app":"k","op":"pay","args":["a","b",50],"reads":["a","b"],"writes":["a","b"]},
  {"client":"c1","app":"k","op":"copy","args":["a","c"],"reads":["a"],"writes":["c"]}],
 "faulty":[],"schedule":[{"do":"all"}]}"#;

/// Each position copies 1, and makes the next one ready.
pub const RELAYED: [Want; 3] = [
    Want {
        read: Some(1),
        wrote: Some(1),
        made: Some(1),
    },
    Want {
        read: Some(1),
        wrote: Some(1),
        made: Some(2),
    },
    Want {
        read: Some(1),
        wrote: Some(1),
        made: None,
    },
];

/// The first position reads 1, although the second writes 5.
pub const READ_FIRST: [Want; 2] = [
    Want {
        read: Some(1),
        wrote: Some(1),
        made: Some(1),
    },
    Want {
        read: None,
        wrote: Some(5),
        made: None,
    },
];

/// The second position writes 5 first, and the first still reads 1.
pub const WRITTEN_FIRST: [Want; 2] = [
    Want {
        read: Some(1),
        wrote: Some(1),
        made: None,
    },
    Want {
        read: None,
        wrote: Some(5),
        made: None,
    },
];

/// The second writer finishes first; what aborts leaves its 9 to the reader.
pub const WRITTEN_IN_TURN: [Want; 4] = [
    Want {
        read: None,
        wrote: Some(4),
        made: Some(2),
    },
    Want {
        read: None,
        wrote: Some(9),
        made: None,
    },
    Want {
        read: Some(9),
        wrote: None,
        made: Some(3),
    },
    Want {
        read: Some(9),
        wrote: Some(9),
        made: None,
    },
];
