//! What the reader reads, and the faults that it finds: of syntax, and of limits at both their edges.

use super::{Answer, STOCK, repeated};
use contract_reader::{ReadFault, read};
use std::alloc::Global;
use std::test::Fail;

fn outcome_of(alloc: Global, text: &[u8]) -> Answer {
    if text.len() > 65536 {
        return Answer::TooLong;
    }
    match read(alloc, text) {
        Ok(ops) => Answer::Ops(ops.len()),
        Err(ReadFault::Syntax { at }) => Answer::Syntax(at),
        Err(ReadFault::Limit { at }) => Answer::Limit(at),
        Err(ReadFault::OutOfMemory) => Answer::NoMemory,
    }
}

static TEXTS: [(&str, Answer); 71] = [
    (STOCK, Answer::Ops(7)),
    (
        "op transfer(from:record,to:record,n:number){from=from-n;to=to+n;}",
        Answer::Ops(1),
    ),
    (
        "op sell(stock:record,till:record,n:number,price:number){require stock>=n;stock=stock-n;till=till+n*price;}",
        Answer::Ops(1),
    ),
    ("op f(r:record){r=q;}", Answer::Ops(1)),
    (
        "op f(r:record){if not r==0 and(r<1 or r>2)or r!=3{let x=r%7;repeat 3{x=x*2;}}else{}require x<=r;}",
        Answer::Ops(1),
    ),
    ("op\tf\r\n(\n)\t{ }op g(){}", Answer::Ops(2)),
    ("op ops(letter:number){let_=notes;}", Answer::Ops(1)),
    ("op f(){x=1/2==3;}", Answer::Ops(1)),
    ("", Answer::Syntax(0)),
    (" \t\r\n", Answer::Syntax(4)),
    ("op", Answer::Syntax(2)),
    ("op f", Answer::Syntax(4)),
    ("op f(", Answer::Syntax(5)),
    ("op f()", Answer::Syntax(6)),
    ("op f(){", Answer::Syntax(7)),
    ("op f(){x", Answer::Syntax(8)),
    ("op f(){x=1", Answer::Syntax(10)),
    ("op f(){x=1;", Answer::Syntax(11)),
    ("x", Answer::Syntax(0)),
    ("op let(){}", Answer::Syntax(3)),
    ("op 7(){}", Answer::Syntax(3)),
    ("op f(a){}", Answer::Syntax(6)),
    ("op f(a:a){}", Answer::Syntax(7)),
    ("op f(a:record,){}", Answer::Syntax(14)),
    ("op f(,a:record){}", Answer::Syntax(5)),
    ("op f(a:record b:record){}", Answer::Syntax(14)),
    ("op f();", Answer::Syntax(6)),
    ("op f(){}}", Answer::Syntax(8)),
    ("op f(){}f", Answer::Syntax(8)),
    ("op f(){1;}", Answer::Syntax(7)),
    ("op f(){let if=1;}", Answer::Syntax(11)),
    ("op f(){let x;}", Answer::Syntax(12)),
    ("op f(){x==1;}", Answer::Syntax(8)),
    ("op f(){x=;}", Answer::Syntax(9)),
    ("op f(){x=1}", Answer::Syntax(10)),
    ("op f(){x=1,2;}", Answer::Syntax(10)),
    ("op f(){x=(1;}", Answer::Syntax(11)),
    ("op f(){x=1);}", Answer::Syntax(10)),
    ("op f(){x=();}", Answer::Syntax(10)),
    ("op f(){x=a<b<c;}", Answer::Syntax(12)),
    ("op f(){x=a==b!=c;}", Answer::Syntax(13)),
    ("op f(){x=not not a;}", Answer::Syntax(13)),
    ("op f(){x=a+not b;}", Answer::Syntax(11)),
    ("op f(){x=a==not b;}", Answer::Syntax(12)),
    ("op f(){x=a b;}", Answer::Syntax(11)),
    ("op f(){x=a not b;}", Answer::Syntax(11)),
    ("op f(){x=a+*b;}", Answer::Syntax(11)),
    ("op f(){x=-1;}", Answer::Syntax(9)),
    ("op f(){require a{}}", Answer::Syntax(16)),
    ("op f(){if a;}", Answer::Syntax(11)),
    ("op f(){if a{}else if b{}}", Answer::Syntax(18)),
    ("op f(){if a{}else{}else{}}", Answer::Syntax(19)),
    ("op f(){else{}}", Answer::Syntax(7)),
    ("op f(){repeat a{}}", Answer::Syntax(14)),
    ("op f(){repeat 2;}", Answer::Syntax(15)),
    ("op f(){x=1;;}", Answer::Syntax(11)),
    ("op f(){x=01;}", Answer::Syntax(9)),
    ("op f(){x=00;}", Answer::Syntax(9)),
    ("op f(){x=1a;}", Answer::Syntax(9)),
    ("op f(){x=1_;}", Answer::Syntax(9)),
    ("op f(){x=0x;}", Answer::Syntax(9)),
    ("op f(){x=_a;}", Answer::Syntax(9)),
    ("op f(){x=a!b;}", Answer::Syntax(10)),
    ("op f(){x=a&b;}", Answer::Syntax(10)),
    ("op f(){X=1;}", Answer::Syntax(7)),
    ("op f(){x=1\"a\";}", Answer::Syntax(10)),
    ("é", Answer::Syntax(0)),
    ("op f(){x=1=2;}", Answer::Syntax(10)),
    ("op f(){x=a< =b;}", Answer::Syntax(12)),
    ("op f(a:number){a=1;}op", Answer::Syntax(22)),
    ("op f(){}op", Answer::Syntax(10)),
];

static EDGES: [(&str, &str, usize, &str, Answer); 77] = [
    (
        "op f(r:record){r=4611686018427387903",
        "",
        0,
        ";}",
        Answer::Ops(1),
    ),
    (
        "op f(r:record){r=4611686018427387904",
        "",
        0,
        ";}",
        Answer::Limit(17),
    ),
    ("op f(r:record){r=1", "0", 40, ";}", Answer::Limit(17)),
    ("op f(r:record){r=", "9", 1000, ";}", Answer::Limit(17)),
    ("op f(r:record){r=", "9", 3000, "a;}", Answer::Syntax(17)),
    ("op ", "a", 32, "(){}", Answer::Ops(1)),
    ("op ", "a", 33, "(){}", Answer::Limit(3)),
    ("op f(r:record){r=", "z", 33, ";}", Answer::Limit(17)),
    ("op f(", "z", 33, ":record){}", Answer::Limit(5)),
    ("op f(r:record", "z", 33, "){}", Answer::Syntax(7)),
    ("op f(){repeat 0", "", 0, "{}}", Answer::Limit(14)),
    ("op f(){repeat 1", "", 0, "{}}", Answer::Ops(1)),
    ("op f(){repeat 64", "", 0, "{}}", Answer::Ops(1)),
    ("op f(){repeat 65", "", 0, "{}}", Answer::Limit(14)),
    (
        "op f(){repeat 32{repeat 32{repeat 1{}}}",
        "",
        0,
        "}",
        Answer::Ops(1),
    ),
    (
        "op f(){repeat 32{repeat 33{}}",
        "",
        0,
        "}",
        Answer::Limit(24),
    ),
    (
        "op f(){repeat 64{}repeat 64{repeat 16{}repeat 17{}}",
        "",
        0,
        "}",
        Answer::Limit(46),
    ),
    (
        "op f(){repeat 2{if 1{repeat 32{}}else{repeat 16{repeat 64{}}}}",
        "",
        0,
        "}",
        Answer::Limit(55),
    ),
    ("op f(){if 1025", "", 0, "{}}", Answer::Ops(1)),
    ("op f(r:record){r=", "(", 33, "", Answer::Limit(49)),
    ("op f(r:record){r=", "(", 32, "", Answer::Syntax(49)),
    ("op f(r:record){r=((1)+", "(", 31, "1", Answer::Syntax(54)),
    ("op f(r:record){r=((1)+", "(", 32, "", Answer::Limit(53)),
    ("op f(){", "if 1{", 31, "", Answer::Syntax(162)),
    ("op f(){", "if 1{", 32, "", Answer::Limit(166)),
    ("op f(){", "if 1{}", 40, "}", Answer::Ops(1)),
    ("op f(r:record){r=r", "+r", 32, ";}", Answer::Ops(1)),
    ("op f(r:record){r=r", "+r", 33, ";}", Answer::Limit(82)),
    ("op f(r:record){r=r", "-r", 32, ";}", Answer::Ops(1)),
    ("op f(r:record){r=r", "-r", 33, ";}", Answer::Limit(82)),
    ("op f(r:record){r=r", "*r", 32, ";}", Answer::Ops(1)),
    ("op f(r:record){r=r", "*r", 33, ";}", Answer::Limit(82)),
    ("op f(r:record){r=r", "/r", 32, ";}", Answer::Ops(1)),
    ("op f(r:record){r=r", "/r", 33, ";}", Answer::Limit(82)),
    ("op f(r:record){r=r", "%r", 32, ";}", Answer::Ops(1)),
    ("op f(r:record){r=r", "%r", 33, ";}", Answer::Limit(82)),
    ("op f(r:record){r=r", " or r", 32, ";}", Answer::Ops(1)),
    ("op f(r:record){r=r", " or r", 33, ";}", Answer::Limit(179)),
    ("op f(r:record){r=r", " and r", 32, ";}", Answer::Ops(1)),
    ("op f(r:record){r=r", " and r", 33, ";}", Answer::Limit(211)),
    ("op f(r:record){r=r", "+r-r", 16, ";}", Answer::Ops(1)),
    ("op f(r:record){r=r", "+r-r", 17, ";}", Answer::Limit(82)),
    ("op f(r:record){r=(r", "+r", 32, ")+r;}", Answer::Limit(84)),
    (
        "op f(r:record){r=(((r",
        "+r",
        31,
        "))+1)+r;}",
        Answer::Limit(88),
    ),
    ("op f(r:record){r=(r", "+r", 31, ")+r;}", Answer::Ops(1)),
    ("op f(r:record){r=(r)", "+r", 32, ";}", Answer::Ops(1)),
    ("op f(r:record){r=(r)", "+r", 33, ";}", Answer::Limit(84)),
    ("op f(r:record){r=r+(r", "+r", 32, ");}", Answer::Ops(1)),
    ("op f(r:record){r=(r", "*r", 32, ")+r;}", Answer::Ops(1)),
    (
        "op f(r:record){r=(not r) and r",
        " and r",
        31,
        ";}",
        Answer::Ops(1),
    ),
    (
        "op f(r:record){r=not(r",
        " and r",
        32,
        ")and r;}",
        Answer::Ops(1),
    ),
    (
        "op f(r:record){r=r",
        " or r and r",
        32,
        ";}",
        Answer::Ops(1),
    ),
    (
        "op f(r:record){r=",
        "(",
        32,
        "1<1)<1)<1)<1)<1)<1)<1)<1)<1)<1)<1)<1)<1)<1)<1)<1)<1)<1)<1)<1)<1)<1)<1)<1)<1)<1)<1)<1)<1)<1)<1)<1)<1;}",
        Answer::Ops(1),
    ),
    ("op f(a:record", ",b:number", 15, "){}", Answer::Ops(1)),
    ("op f(a:record", ",b:number", 16, "){}", Answer::Limit(149)),
    (
        "op f(a:record",
        ",b:number",
        15,
        ",){}",
        Answer::Syntax(149),
    ),
    (
        "op f(a:record",
        ",b:number",
        15,
        "){}op g(a:record,b:record){}",
        Answer::Ops(2),
    ),
    ("op f(){", "let a=0;", 32, "}", Answer::Ops(1)),
    ("op f(){", "let a=0;", 33, "}", Answer::Limit(267)),
    (
        "op f(){if 1{let b=1;let c=1;}",
        "let a=0;",
        32,
        "}",
        Answer::Ops(1),
    ),
    (
        "op f(){",
        "let a=0;",
        32,
        "if 1{let b=1;}}",
        Answer::Limit(272),
    ),
    ("op f(){", "let a=0;", 32, "let", Answer::Syntax(266)),
    (
        "op f(){",
        "let a=0;",
        32,
        "}op g(){let a=0;}",
        Answer::Ops(2),
    ),
    ("", "op f(){}", 16, "", Answer::Ops(16)),
    ("", "op f(){}", 17, "", Answer::Limit(128)),
    ("", "op f(){}", 16, "op", Answer::Limit(128)),
    ("op f(){", " ", 4088, "}", Answer::Ops(1)),
    ("op f(){", " ", 4089, "}", Answer::Limit(4096)),
    ("op f(){", " ", 4085, "x=1;}", Answer::Limit(4096)),
    ("op f(){", " ", 4087, "xy=1;}", Answer::Limit(4096)),
    ("op f(){", " ", 4088, "xy=1;}", Answer::Limit(4095)),
    ("op f(){}", " ", 5000, "op g(){}", Answer::Ops(2)),
    ("op f(){", " ", 60000, "", Answer::Syntax(60007)),
    ("op f(r:record){r=9", "0", 30, ";01;}", Answer::Limit(17)),
    ("op f(r:record){r=01;", "9", 30, ";}", Answer::Syntax(17)),
    ("op f(r:record){r=r+", "(", 33, ")", Answer::Limit(51)),
    ("op f(r:record){r=r ", "z", 33, ";}", Answer::Syntax(19)),
];

// Texts that are accepted, and texts with a token, or an end, that the grammar doesn't allow.
#[test]
fn syntax_faults_are_at_their_bytes(rt: HostRuntime) -> Result<(), Fail> {
    for (text, expected) in &TEXTS {
        let expected = *expected;
        assert_eq!(rt;
            outcome_of(rt.alloc(), text.as_bytes()),
            expected,
            "of {text}"
        );
    }
    Ok(())
}

// Each limit at both its edges, and several faults in one text.
#[test]
fn limits_are_at_their_bytes(rt: HostRuntime) -> Result<(), Fail> {
    for (front, piece, times, back, expected) in &EDGES {
        let expected = *expected;
        let whole = repeated(rt.alloc(), front, piece, *times, back)?;
        assert_eq!(rt;
            outcome_of(rt.alloc(), whole.as_slice()),
            expected,
            "of {front}, {times} times {piece}"
        );
    }
    Ok(())
}
