//! What is counted over the tokens, for the limits.

ghost use Rattle.std.specs.Prelude.{◌≡◌, ◌≤◌, ◌<◌, ◌+◌, ◌*◌, ◌^◌, ◌||◌, OnOk, nat_lt};
ghost use Rattle.txn_types.specs.Values.{max_turns};
ghost use Rattle.contract_grammar.specs.Limits.{ops_after, begun_after, commas_after, parentheses_after, previous_after, factor, product_in, locals_in, with_local, without_first, scopes_after, tallied, no_tally, is_large, is_long_name, is_bad_count, is_deep, is_further_name, is_further_op, is_far, passes};
ghost use Rattle.contract_reader.specs.Counted.{previous_of, scopes_of, tally_of, AreSmall};

use contract_grammar::{Mark, Placed, Token};
use std::alloc::Global;
use txn_types::{MAX, MAX_TURNS, OutOfMemory};

/// What is directly before a token, where a limit depends on it.
#[derive(Clone, Copy, Debug, PartialEq, Eq)]
pub enum Previous {
    Plain,
    RepeatWord,
    Count(u64),
    LetWord,
    Comma,
}

/// Of an open block: the product of the enclosing repeat counts, and the locals visible in it.
#[derive(Drop)]
pub struct Scope {
    pub product: u64,
    pub locals: u64,
}

/// What is counted over the tokens so far.
#[derive(Drop)]
pub struct Counts {
    pub ops: u64,
    pub begun: u32,
    pub commas: u64,
    pub parentheses: u64,
    pub scopes: Vec<Scope>,
    pub previous: Previous,
}

fn ops_after(n: u64, token: &Token) -> u64
    requires { n + 1 < 2 ^ 64 }
    ensures { result ≡ ops_after n token.now }
{
    match token {
        Token::Fixed(Mark::WordOp) => n + 1,
        _ => n,
    }
}

fn begun_after(begun: u32, at: u32, token: &Token) -> u32
    ensures { result ≡ begun_after begun at token.now }
{
    match token {
        Token::Fixed(Mark::WordOp) => at,
        _ => begun,
    }
}

fn commas_after(n: u64, token: &Token) -> u64
    requires { n + 1 < 2 ^ 64 }
    ensures { result ≡ commas_after n token.now }
{
    match token {
        Token::Fixed(Mark::WordOp) => 0,
        Token::Fixed(Mark::Comma) => n + 1,
        _ => n,
    }
}

fn parentheses_after(n: u64, token: &Token) -> u64
    requires { n + 1 < 2 ^ 64 }
    ensures { result ≡ parentheses_after n token.now }
{
    match token {
        Token::Open => n + 1,
        Token::Close => n.saturating_sub(1),
        _ => n,
    }
}

fn previous_after(previous: Previous, token: &Token) -> Previous
    ensures { previous_of result ≡ previous_after (previous_of previous) token.now }
{
    match token {
        Token::Fixed(Mark::WordRepeat) => Previous::RepeatWord,
        Token::Fixed(Mark::WordLet) => Previous::LetWord,
        Token::Fixed(Mark::Comma) => Previous::Comma,
        Token::Number(n) => match previous {
            Previous::RepeatWord => Previous::Count(*n),
            Previous::Plain | Previous::Count(_) | Previous::LetWord | Previous::Comma => {
                Previous::Plain
            }
        },
        _ => Previous::Plain,
    }
}

fn factor(previous: Previous) -> u64
    ensures { result ≡ factor (previous_of previous) }
{
    match previous {
        Previous::Count(n) => n,
        _ => 1,
    }
}

fn product_in(scopes: &Vec<Scope>) -> u64
    ensures { result ≡ product_in (scopes_of scopes.now.items) }
{
    match scopes.last() {
        None => 1,
        Some(scope) => scope.product,
    }
}

fn locals_in(scopes: &Vec<Scope>) -> u64
    ensures { result ≡ locals_in (scopes_of scopes.now.items) }
{
    match scopes.last() {
        None => 0,
        Some(scope) => scope.locals,
    }
}

fn with_local(scopes: &mut Vec<Scope>) -> Result<(), OutOfMemory>
    requires { locals_in (scopes_of scopes.old.items) + 1 < 2 ^ 64 }
    ensures { OnOk result (scopes_of scopes.new.items ≡ with_local (scopes_of scopes.old.items)) }
{
    if let Some(Scope { product, locals }) = scopes.pop() {
        scopes.push(Scope {
            product,
            locals: locals + 1,
        })?;
    }
    Ok(())
}

fn scopes_after(
    previous: Previous,
    scopes: &mut Vec<Scope>,
    token: &Token,
) -> Result<(), OutOfMemory>
    requires product { factor (previous_of previous) * product_in (scopes_of scopes.old.items) ≤ max_turns }
    requires locals { locals_in (scopes_of scopes.old.items) + 1 < 2 ^ 64 }
    ensures { OnOk result (scopes_of scopes.new.items ≡ scopes_after (previous_of previous) (scopes_of scopes.old.items) token.now) }
{
    match token {
        Token::Fixed(Mark::OpenBlock) => {
            let product = factor(previous) * product_in(scopes);
            let locals = locals_in(scopes);
            scopes.push(Scope { product, locals })?;
        }
        Token::Fixed(Mark::CloseBlock) => {
            let _ = scopes.pop();
        }
        Token::Fixed(Mark::WordLet) => with_local(scopes)?,
        _ => {}
    }
    Ok(())
}

impl Counts {
    /// What is counted over no tokens.
    pub fn new(alloc: Global) -> Counts
        ensures { tally_of result ≡ no_tally }
    {
        Counts {
            ops: 0,
            begun: 0,
            commas: 0,
            parentheses: 0,
            scopes: Vec::new(alloc),
            previous: Previous::Plain,
        }
    }
}

/// Counts a token.
#[tactic(auto, unfolding(contract_grammar::specs::Limits::tallied))]
pub fn count(counts: &mut Counts, placed: &Placed) -> Result<(), OutOfMemory>
    requires ops { counts.old.ops + 1 < 2 ^ 64 }
    requires commas { counts.old.commas + 1 < 2 ^ 64 }
    requires parentheses { counts.old.parentheses + 1 < 2 ^ 64 }
    requires product { factor (previous_of counts.old.previous) * product_in (scopes_of counts.old.scopes.items) ≤ max_turns }
    requires locals { locals_in (scopes_of counts.old.scopes.items) + 1 < 2 ^ 64 }
    ensures { OnOk result (tally_of counts.new ≡ tallied (tally_of counts.old) placed.now) }
{
    let token = &placed.token;
    scopes_after(counts.previous, &mut counts.scopes, token)?;
    counts.ops = ops_after(counts.ops, token);
    counts.begun = begun_after(counts.begun, placed.span.start, token);
    counts.commas = commas_after(counts.commas, token);
    counts.parentheses = parentheses_after(counts.parentheses, token);
    counts.previous = previous_after(counts.previous, token);
    Ok(())
}

fn is_large(token: &Token) -> bool
    ensures { result ≡ is_large token.now }
{
    match token {
        Token::Number(n) => *n > MAX,
        _ => false,
    }
}

fn is_long_name(token: &Token) -> bool
    ensures { result ≡ is_long_name token.now }
{
    match token {
        Token::Named(_, long) => *long,
        _ => false,
    }
}

fn is_bad_number(n: u64, product: u64) -> bool
    ensures { result ≡ (nat_lt n 1 || (nat_lt 64 n || nat_lt max_turns (n * product))) }
{
    n < 1 || n > 64 || n.saturating_mul(product) > MAX_TURNS
}

fn is_bad_count(previous: Previous, scopes: &Vec<Scope>, token: &Token) -> bool
    ensures { result ≡ is_bad_count (previous_of previous) (scopes_of scopes.now.items) token.now }
{
    match previous {
        Previous::RepeatWord => match token {
            Token::Number(n) => is_bad_number(*n, product_in(scopes)),
            _ => false,
        },
        Previous::Plain | Previous::Count(_) | Previous::LetWord | Previous::Comma => false,
    }
}

fn is_deep(parentheses: u64, scopes: &Vec<Scope>, token: &Token) -> bool
    ensures { result ≡ is_deep parentheses (scopes_of scopes.now.items) token.now }
{
    match token {
        Token::Open => 32 <= parentheses,
        Token::Fixed(Mark::OpenBlock) => 32 <= scopes.len(),
        _ => false,
    }
}

fn is_further_name(previous: Previous, commas: u64, scopes: &Vec<Scope>, token: &Token) -> bool
    ensures { result ≡ is_further_name (previous_of previous) commas (scopes_of scopes.now.items) token.now }
{
    match previous {
        Previous::Comma => match token {
            Token::Named(_, _) => 16 <= commas,
            _ => false,
        },
        Previous::LetWord => match token {
            Token::Named(_, _) => 32 < locals_in(scopes),
            _ => false,
        },
        Previous::Plain | Previous::Count(_) | Previous::RepeatWord => false,
    }
}

fn is_further_op(ops: u64, token: &Token) -> bool
    ensures { result ≡ is_further_op ops token.now }
{
    match token {
        Token::Fixed(Mark::WordOp) => 16 <= ops,
        _ => false,
    }
}

fn is_far(begun: u32, placed: &Placed) -> bool
    ensures { result ≡ is_far begun placed.now }
{
    let begun = begun_after(begun, placed.span.start, &placed.token);
    u64::from(begun) + 4096 < u64::from(placed.span.end)
}

/// Whether a token passes a limit, other than that of a chain of operators.
#[tactic(auto, unfolding(contract_grammar::specs::Limits::passes))]
pub fn passes(counts: &Counts, placed: &Placed) -> bool
    ensures { result ≡ passes (tally_of counts.now) placed.now }
{
    let token = &placed.token;
    is_large(token)
        || is_long_name(token)
        || is_bad_count(counts.previous, &counts.scopes, token)
        || is_deep(counts.parentheses, &counts.scopes, token)
        || is_further_name(counts.previous, counts.commas, &counts.scopes, token)
        || is_further_op(counts.ops, token)
        || is_far(counts.begun, placed)
}
