//! A text of tokens, with a space only where two would run into one.

ghost use Rattle.std.specs.Prelude.{◌≡◌, ◌++◌, ◌&&◌, false, OnOk};
ghost use Rattle.contract_grammar.specs.declared.token.Token.TheVariants as token;
ghost use Rattle.contract_printer.specs.Canonical.{is_word_operator, is_word_mark, operator_text, mark_text, space};
ghost use Rattle.contract_printer.specs.SpacedTexts.{put, blank};

use contract_grammar::{Mark, Operator};
use itoa::Buffer;
use std::alloc::Global;
use txn_types::{OutOfMemory, Text};

/// A text that is being written, and whether it ends with a name, a word or a number.
#[derive(Drop)]
pub struct SpacedText {
    pub text: Text,
    pub word: bool,
}

fn operator_text(op: Operator) -> &'static [u8]
    ensures { result.now ≡ operator_text op }
{
    match op {
        Operator::Or => b"or",
        Operator::And => b"and",
        Operator::Equal => b"==",
        Operator::NotEqual => b"!=",
        Operator::Less => b"<",
        Operator::LessEqual => b"<=",
        Operator::Greater => b">",
        Operator::GreaterEqual => b">=",
        Operator::Plus => b"+",
        Operator::Minus => b"-",
        Operator::Times => b"*",
        Operator::Divide => b"/",
        Operator::Remainder => b"%",
    }
}

fn mark_text(mark: Mark) -> &'static [u8]
    ensures { result.now ≡ mark_text mark }
{
    match mark {
        Mark::WordOp => b"op",
        Mark::WordLet => b"let",
        Mark::WordRequire => b"require",
        Mark::WordIf => b"if",
        Mark::WordElse => b"else",
        Mark::WordRepeat => b"repeat",
        Mark::WordRecord => b"record",
        Mark::WordNumber => b"number",
        Mark::OpenBlock => b"{",
        Mark::CloseBlock => b"}",
        Mark::Colon => b":",
        Mark::Comma => b",",
        Mark::Semicolon => b";",
        Mark::Becomes => b"=",
    }
}

fn is_word_operator(op: Operator) -> bool
    ensures { result ≡ is_word_operator op }
{
    matches!(op, Operator::Or | Operator::And)
}

fn is_word_mark(mark: Mark) -> bool
    ensures { result ≡ is_word_mark mark }
{
    match mark {
        Mark::OpenBlock
        | Mark::CloseBlock
        | Mark::Colon
        | Mark::Comma
        | Mark::Semicolon
        | Mark::Becomes => false,
        Mark::WordOp
        | Mark::WordLet
        | Mark::WordRequire
        | Mark::WordIf
        | Mark::WordElse
        | Mark::WordRepeat
        | Mark::WordRecord
        | Mark::WordNumber => true,
    }
}

impl SpacedText {
    /// Nothing yet.
    pub fn new(alloc: Global) -> SpacedText
        ensures { result ≡ blank }
    {
        SpacedText {
            text: Text::new(alloc),
            word: false,
        }
    }

    /// The whole text.
    pub fn into_text(self) -> Text
        ensures { result ≡ self.text }
    {
        self.text
    }

    /// Writes the bytes of a token, after a space where words would meet.
    fn put(&mut self, piece: &[u8], is_word: bool) -> Result<(), OutOfMemory>
        ensures text { OnOk result (self.new.text ≡ self.old.text ++ (space (self.old.word && is_word) ++ piece.now)) }
        ensures word { OnOk result (self.new.word ≡ is_word) }
    {
        if self.word && is_word {
            self.text.append(b" ")?;
        }
        self.word = is_word;
        self.text.append(piece)
    }

    /// Writes a number.
    #[tactic(auto, unfolding(crate::specs::SpacedTexts::put))]
    pub fn put_number(&mut self, n: u64) -> Result<(), OutOfMemory>
        ensures { OnOk result (self.new ≡ put self.old (token.Number n)) }
    {
        let mut buffer = Buffer::new();
        self.put(buffer.format(n).as_bytes(), true)
    }

    /// Writes a name.
    #[tactic(auto, unfolding(crate::specs::SpacedTexts::put))]
    pub fn put_name(&mut self, name: &[u8]) -> Result<(), OutOfMemory>
        ensures { OnOk result (self.new ≡ put self.old (token.Named name.now false)) }
    {
        self.put(name, true)
    }

    /// Writes an operator.
    #[tactic(auto, unfolding(crate::specs::SpacedTexts::put))]
    pub fn put_infix(&mut self, op: Operator) -> Result<(), OutOfMemory>
        ensures { OnOk result (self.new ≡ put self.old (token.Infix op)) }
    {
        self.put(operator_text(op), is_word_operator(op))
    }

    /// Writes `not`.
    #[tactic(auto, unfolding(crate::specs::SpacedTexts::put))]
    pub fn put_not(&mut self) -> Result<(), OutOfMemory>
        ensures { OnOk result (self.new ≡ put self.old token.Not) }
    {
        self.put(b"not", true)
    }

    /// Writes `(`.
    #[tactic(auto, unfolding(crate::specs::SpacedTexts::put))]
    pub fn open(&mut self) -> Result<(), OutOfMemory>
        ensures { OnOk result (self.new ≡ put self.old token.Open) }
    {
        self.put(b"(", false)
    }

    /// Writes `)`.
    #[tactic(auto, unfolding(crate::specs::SpacedTexts::put))]
    pub fn close(&mut self) -> Result<(), OutOfMemory>
        ensures { OnOk result (self.new ≡ put self.old token.Close) }
    {
        self.put(b")", false)
    }

    /// Writes a word or a sign of statements and operations.
    #[tactic(auto, unfolding(crate::specs::SpacedTexts::put))]
    pub fn put_mark(&mut self, mark: Mark) -> Result<(), OutOfMemory>
        ensures { OnOk result (self.new ≡ put self.old (token.Fixed mark)) }
    {
        self.put(mark_text(mark), is_word_mark(mark))
    }
}
