//! Texts with and without faults of the second pass.

use super::Answer::*;
use super::{Answer, STOCK};
use contract_text::{TextFault, read_contract};
use std::alloc::Global;
use std::test::Fail;

fn answer_of(alloc: Global, text: &str) -> Answer {
    if text.len() > 65536 {
        return TooLong;
    }
    match read_contract(alloc, text) {
        Ok(contract) => Ops(contract.ops.len()),
        Err(TextFault::Syntax { at }) => Syntax(at),
        Err(TextFault::UnknownName { at }) => UnknownName(at),
        Err(TextFault::Kind { at }) => Kind(at),
        Err(TextFault::Limit { at }) => Limit(at),
        Err(TextFault::Double { at }) => Double(at),
        Err(TextFault::OutOfMemory) => NoMemory,
    }
}

static TEXTS: [(&str, Answer); 70] = [
    (STOCK, Ops(7)),
    ("op f(f:number){let g=f;}op g(f:record){f=1;}", Ops(2)),
    ("op f(r:record){if 1<2{let a=1;}let a=2;r=a;}", Ops(1)),
    ("op f(r:record){repeat 2{let a=r;r=a;}}", Ops(1)),
    ("op f(r:record){if r<1{let a=1;}else{let a=2;}}", Ops(1)),
    (
        "op f(r:record){if not r==0 and(r<1 or r>2)or r!=3{let x=r%7;repeat 3{x=x*2;}}else{}require 1<=r;}",
        Ops(1),
    ),
    ("op f(){}op f(){}", Double(11)),
    ("op f(a:record,a:number){}", Double(14)),
    ("op f(a:record){let a=1;}", Double(19)),
    ("op f(){let a=1;let a=2;}", Double(19)),
    ("op f(){let a=1;if 1<2{let a=2;}}", Double(26)),
    ("op f(r:record){if 1<2{let a=1;}r=a;}", UnknownName(33)),
    (
        "op f(r:record){if r<1{let a=1;}else{r=a;}}",
        UnknownName(38),
    ),
    ("op f(r:record){repeat 2{let a=r;}r=a;}", UnknownName(35)),
    ("op f(){let a=a;}", UnknownName(13)),
    ("op f(){x=1;}", UnknownName(7)),
    ("op f(r:record){r=q;}", UnknownName(17)),
    ("op f(a:number){}op g(r:record){r=a;}", UnknownName(33)),
    ("op f(n:number){n=1;}", Kind(15)),
    ("op f(r:record){r=r==1;}", Kind(17)),
    ("op f(r:record){require r;}", Kind(23)),
    ("op f(r:record){let a=not r<1;}", Kind(21)),
    ("op f(){require not 1;}", Kind(19)),
    ("op f(r:record){r=(r<1)+2;}", Kind(17)),
    ("op f(r:record){r=2*((r<1)or r<2);}", Kind(19)),
    ("op f(r:record){require (r<1)==2;}", Kind(23)),
    ("op f(r:record){if r and r<1{}}", Kind(18)),
    ("op f(r:record){if r<1 or 7{}}", Kind(25)),
    ("op f(){require x and 1<2;}", UnknownName(15)),
    ("op f(r:record){r=x and 1<2;}", UnknownName(17)),
    ("op f(r:record,r:number){q=r<1;}op f(){}", Double(14)),
    ("op f(r:record){r=q;let r=1;}", UnknownName(17)),
    ("op f(r:record){let r=q;r=q;}", Double(19)),
    ("op f(n:number){if n{n=q;}else{n=1;}}op f(){}", Kind(18)),
    ("op f(r:record){r=1+(r<q);}", Kind(19)),
    // An unknown name in parentheses stands at its own byte, and an expression of the wrong kind at its parenthesis.
    ("op f(r:record){if (q)<(r){}}", UnknownName(19)),
    ("op f(r:record){if ((q))<r{}}", UnknownName(20)),
    ("op f(r:record){if r<( q ){}}", UnknownName(22)),
    ("op f(r:record){if (q){}}", UnknownName(19)),
    ("op f(r:record){if not (q){}}", UnknownName(23)),
    ("op f(r:record){if not ((q)){}}", UnknownName(24)),
    ("op f(r:record){if (r){}}", Kind(18)),
    ("op f(r:record){if ((r)){}}", Kind(18)),
    ("op f(r:record){if not (r){}}", Kind(22)),
    ("op f(){let a=(q);}", UnknownName(14)),
    ("op f(){let a=((q));}", UnknownName(15)),
    ("op f(r:record){r=not (q);}", Kind(17)),
    ("op f(r:record){r=(not (q));}", Kind(17)),
    // Of two faults in a chain the one at the lesser byte is told, in conditions and in values.
    ("op f(r:record){if (q)-(1<2)<r{}}", UnknownName(19)),
    ("op f(r:record){if (1<2)-(q)<r{}}", Kind(18)),
    ("op f(r:record){if r<r-(q)-(1<2){}}", UnknownName(23)),
    ("op f(r:record){if r<r-(1<2)-(q){}}", Kind(22)),
    ("op f(r:record){if (q)and(r){}}", UnknownName(19)),
    ("op f(r:record){if (r)and(q){}}", Kind(18)),
    ("op f(r:record){r=(q)-(1<2);}", UnknownName(18)),
    ("op f(r:record){r=(1<2)-(q);}", Kind(17)),
    ("op f(r:record){r=1-((q))-(1<2);}", UnknownName(21)),
    ("op f(r:record){r=1-((1<2))-(q);}", Kind(19)),
    ("op f(r:record){r=((q)-1)-(1<2);}", UnknownName(19)),
    // An expression of the wrong kind that begins with an unknown name: at one byte the name is told, behind a parenthesis the kind.
    ("op f(r:record){require q-1;}", UnknownName(23)),
    ("op f(r:record){require (q)-1;}", Kind(23)),
    ("op f(r:record){require not q-1;}", UnknownName(27)),
    ("op f(r:record){require not (q)-1;}", Kind(27)),
    ("op f(r:record){if q-1{}}", UnknownName(18)),
    ("op f(r:record){if (q)-1{}}", Kind(18)),
    ("op f(r:record){r=q<1;}", UnknownName(17)),
    ("op f(r:record){r=(q)<1;}", Kind(17)),
    ("op f(r:record){r=((q)<1);}", Kind(17)),
    ("op f(){x=1;", Syntax(11)),
    ("op f(){x=4611686018427387904;}", Limit(9)),
];

#[test]
fn faults_are_at_their_bytes(rt: HostRuntime) -> Result<(), Fail> {
    for (text, answer) in &TEXTS {
        assert_eq!(rt; answer_of(rt.alloc(), text), *answer, "the text {text}");
    }
    Ok(())
}
