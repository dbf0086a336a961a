//! Texts and the canonical texts of their contracts.

use super::STOCK;
use contract_printer::print_contract;
use contract_text::read_contract;
use std::alloc::Global;
use std::test::Fail;
use txn_types::{OutOfMemory, Text};

/// The canonical text of what a text reads as; one that is too long or has a fault counts as out of memory.
fn reprinted(alloc: Global, text: &str) -> Result<Text, OutOfMemory> {
    if text.len() > 65536 {
        return Err(OutOfMemory);
    }
    match read_contract(alloc, text) {
        Ok(contract) => print_contract(alloc, &contract),
        Err(_) => Err(OutOfMemory),
    }
}

/// Texts and their canonical texts.
static TEXTS: [(&str, &str); 16] = [
    (
        STOCK,
        "op set(r:record,n:number){r=n;}op pay(from:record,to:record,n:number){require from>=n;from=from-n;to=to+n;}op copy(from:record,to:record){to=from;}op maybe(r:record,n:number){if n>5{r=n;}}op inc(r:record){r=r+1;}op dec(r:record){r=r-1;}op div(r:record,n:number){r=r/n;}",
    ),
    (" op\tf ( ) { } \r\n", "op f(){}"),
    ("op f(){} op g(){}", "op f(){}op g(){}"),
    ("op f(r:record){r=(1);}", "op f(r:record){r=1;}"),
    (
        "op f(r:record){r = ( r + 1 ) * 2 ;}",
        "op f(r:record){r=(r+1)*2;}",
    ),
    ("op f(r:record){r=(r*1)+2;}", "op f(r:record){r=r*1+2;}"),
    (
        "op f(r:record){r=(r-1)-(2-3);}",
        "op f(r:record){r=r-1-(2-3);}",
    ),
    (
        "op f(r:record){r=7%(r/2)*r;}",
        "op f(r:record){r=7%(r/2)*r;}",
    ),
    (
        "op f(r:record){require(not((r)<(1)));}",
        "op f(r:record){require not r<1;}",
    ),
    (
        "op f(r:record){require not (not (r!=1)) ;}",
        "op f(r:record){require not(not r!=1);}",
    ),
    (
        "op f(r:record){require ((r<1 or r<2) and (r<3 and r<4)) or (r<5 or r<6);}",
        "op f(r:record){require(r<1 or r<2)and(r<3 and r<4)or(r<5 or r<6);}",
    ),
    (
        "op f(r:record){require not(r<=1 and r>=2);}",
        "op f(r:record){require not(r<=1 and r>=2);}",
    ),
    (
        "op f(r:record){if r==1{}else{}}",
        "op f(r:record){if r==1{}}",
    ),
    (
        "op f(r:record){if r==1{} else {r=2;}}",
        "op f(r:record){if r==1{}else{r=2;}}",
    ),
    (
        "op f(r:record){if (r>1) { repeat 2 {let a=r; r=a; a = 3;} }}",
        "op f(r:record){if r>1{repeat 2{let a=r;r=a;a=3;}}}",
    ),
    (
        "op f(n:number,r:record){if n<1{let a=1;r=a;}let b=n;r=b;}",
        "op f(n:number,r:record){if n<1{let a=1;r=a;}let b=n;r=b;}",
    ),
];

#[test]
fn canonical_texts_are_as_worked(rt: HostRuntime) -> Result<(), Fail> {
    for (text, canonical) in &TEXTS {
        let printed = reprinted(rt.alloc(), text)?;
        assert!(rt;
            printed.as_slice() == canonical.as_bytes(),
            "the canonical text of {text}"
        );
        let again = reprinted(rt.alloc(), canonical)?;
        assert!(rt;
            again.as_slice() == canonical.as_bytes(),
            "the text {canonical} again"
        );
    }
    Ok(())
}
