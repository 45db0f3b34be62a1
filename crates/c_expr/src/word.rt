// The words of the grammar.
ghost use Rattle.std.specs.Prelude.{◌≡◌, Some, None};
ghost use Rattle.c_expr.specs.Words as spelling;
ghost use Rattle.c_tree.specs.declared.expr.AssignOp.TheVariants.{With};

use c_tree::{AssignOp, BinaryOp, StepOp, UnaryOp};
use token_list::{Token, TokenKind};

/// A word of which types consist.
#[derive(Clone, Copy, Drop)]
pub enum TypeName {
    /// `int`
    Int,
    /// `signed`
    Signed,
    /// `unsigned`
    Unsigned,
    /// `void`
    Void,
    /// `pthread_t`
    Thread,
    /// `pthread_mutex_t`
    Mutex,
    /// `pthread_cond_t`
    Cond,
}

/// A word of statements and items.
#[derive(Clone, Copy, Drop)]
pub enum Keyword {
    /// `static`
    Static,
    /// `if`
    If,
    /// `else`
    Else,
    /// `while`
    While,
    /// `do`
    Do,
    /// `for`
    For,
    /// `return`
    Return,
    /// `break`
    Break,
    /// `continue`
    Continue,
}

/// What a token is to the grammar.
#[derive(Clone, Copy, Drop)]
pub enum Word {
    /// A name that is no word of the grammar.
    Name,
    /// A number.
    Number,
    /// A text.
    Text,
    /// `(`
    Left,
    /// `)`
    Right,
    /// `[`
    LeftSquare,
    /// `]`
    RightSquare,
    /// `{`
    LeftBrace,
    /// `}`
    RightBrace,
    /// `;`
    Semicolon,
    /// `,`
    Comma,
    /// `?`
    Ask,
    /// `:`
    Colon,
    /// `!` or `~`: a sign that is no operator between operands.
    Sign(UnaryOp),
    /// `++` or `--`
    Step(StepOp),
    /// An operator between operands; `+`, `-`, `*` and `&` have other meanings too.
    Binary(BinaryOp),
    /// The operator of an assignment.
    Assign(AssignOp),
    /// A word of a type.
    Type(TypeName),
    /// A word of statements and items.
    Keyword(Keyword),
    /// Any other token.
    Other,
}

const MARKS: [Word; 43] = [
    Word::Left,
    Word::Right,
    Word::LeftSquare,
    Word::RightSquare,
    Word::LeftBrace,
    Word::RightBrace,
    Word::Semicolon,
    Word::Comma,
    Word::Ask,
    Word::Colon,
    Word::Sign(UnaryOp::LogicNot),
    Word::Sign(UnaryOp::BitNot),
    Word::Step(StepOp::Increment),
    Word::Step(StepOp::Decrement),
    Word::Binary(BinaryOp::LogicOr),
    Word::Binary(BinaryOp::LogicAnd),
    Word::Binary(BinaryOp::BitOr),
    Word::Binary(BinaryOp::BitXor),
    Word::Binary(BinaryOp::BitAnd),
    Word::Binary(BinaryOp::Equal),
    Word::Binary(BinaryOp::NotEqual),
    Word::Binary(BinaryOp::Less),
    Word::Binary(BinaryOp::Greater),
    Word::Binary(BinaryOp::AtMost),
    Word::Binary(BinaryOp::AtLeast),
    Word::Binary(BinaryOp::ShiftLeft),
    Word::Binary(BinaryOp::ShiftRight),
    Word::Binary(BinaryOp::Plus),
    Word::Binary(BinaryOp::Minus),
    Word::Binary(BinaryOp::Times),
    Word::Binary(BinaryOp::Divide),
    Word::Binary(BinaryOp::Remainder),
    Word::Assign(AssignOp::Plain),
    Word::Assign(AssignOp::With(BinaryOp::Plus)),
    Word::Assign(AssignOp::With(BinaryOp::Minus)),
    Word::Assign(AssignOp::With(BinaryOp::Times)),
    Word::Assign(AssignOp::With(BinaryOp::Divide)),
    Word::Assign(AssignOp::With(BinaryOp::Remainder)),
    Word::Assign(AssignOp::With(BinaryOp::BitAnd)),
    Word::Assign(AssignOp::With(BinaryOp::BitOr)),
    Word::Assign(AssignOp::With(BinaryOp::BitXor)),
    Word::Assign(AssignOp::With(BinaryOp::ShiftLeft)),
    Word::Assign(AssignOp::With(BinaryOp::ShiftRight)),
];

const RESERVED: [Word; 16] = [
    Word::Type(TypeName::Int),
    Word::Type(TypeName::Signed),
    Word::Type(TypeName::Unsigned),
    Word::Type(TypeName::Void),
    Word::Type(TypeName::Thread),
    Word::Type(TypeName::Mutex),
    Word::Type(TypeName::Cond),
    Word::Keyword(Keyword::Static),
    Word::Keyword(Keyword::If),
    Word::Keyword(Keyword::Else),
    Word::Keyword(Keyword::While),
    Word::Keyword(Keyword::Do),
    Word::Keyword(Keyword::For),
    Word::Keyword(Keyword::Return),
    Word::Keyword(Keyword::Break),
    Word::Keyword(Keyword::Continue),
];

fn type_text(name: TypeName) -> &'static [u8]
    ensures { result.now ≡ spelling.type_text name }
{
    match name {
        TypeName::Int => b"int",
        TypeName::Signed => b"signed",
        TypeName::Unsigned => b"unsigned",
        TypeName::Void => b"void",
        TypeName::Thread => b"pthread_t",
        TypeName::Mutex => b"pthread_mutex_t",
        TypeName::Cond => b"pthread_cond_t",
    }
}

fn keyword_text(keyword: Keyword) -> &'static [u8]
    ensures { result.now ≡ spelling.keyword_text keyword }
{
    match keyword {
        Keyword::Static => b"static",
        Keyword::If => b"if",
        Keyword::Else => b"else",
        Keyword::While => b"while",
        Keyword::Do => b"do",
        Keyword::For => b"for",
        Keyword::Return => b"return",
        Keyword::Break => b"break",
        Keyword::Continue => b"continue",
    }
}

fn sign_text(op: UnaryOp) -> &'static [u8]
    ensures { result.now ≡ spelling.prefix_text op }
{
    match op {
        UnaryOp::LogicNot => b"!",
        UnaryOp::BitNot => b"~",
        UnaryOp::Negate => b"-",
        UnaryOp::Plus => b"+",
    }
}

fn binary_text(op: BinaryOp) -> &'static [u8]
    ensures { result.now ≡ spelling.binary_text op }
{
    match op {
        BinaryOp::LogicOr => b"||",
        BinaryOp::LogicAnd => b"&&",
        BinaryOp::BitOr => b"|",
        BinaryOp::BitXor => b"^",
        BinaryOp::BitAnd => b"&",
        BinaryOp::Equal => b"==",
        BinaryOp::NotEqual => b"!=",
        BinaryOp::Less => b"<",
        BinaryOp::Greater => b">",
        BinaryOp::AtMost => b"<=",
        BinaryOp::AtLeast => b">=",
        BinaryOp::ShiftLeft => b"<<",
        BinaryOp::ShiftRight => b">>",
        BinaryOp::Plus => b"+",
        BinaryOp::Minus => b"-",
        BinaryOp::Times => b"*",
        BinaryOp::Divide => b"/",
        BinaryOp::Remainder => b"%",
    }
}

// The operator and `=`.
fn with_text(op: BinaryOp) -> &'static [u8]
    ensures { result.now ≡ spelling.assignment_text (With op) }
{
    match op {
        BinaryOp::LogicOr => b"||=",
        BinaryOp::LogicAnd => b"&&=",
        BinaryOp::BitOr => b"|=",
        BinaryOp::BitXor => b"^=",
        BinaryOp::BitAnd => b"&=",
        BinaryOp::Equal => b"===",
        BinaryOp::NotEqual => b"!==",
        BinaryOp::Less => b"<=",
        BinaryOp::Greater => b">=",
        BinaryOp::AtMost => b"<==",
        BinaryOp::AtLeast => b">==",
        BinaryOp::ShiftLeft => b"<<=",
        BinaryOp::ShiftRight => b">>=",
        BinaryOp::Plus => b"+=",
        BinaryOp::Minus => b"-=",
        BinaryOp::Times => b"*=",
        BinaryOp::Divide => b"/=",
        BinaryOp::Remainder => b"%=",
    }
}

// The text of a mark or of a word; of other tokens the text of none.
fn text_of(word: Word) -> &'static [u8]
    ensures { result.now ≡ spelling.text_of word }
{
    match word {
        Word::Left => b"(",
        Word::Right => b")",
        Word::LeftSquare => b"[",
        Word::RightSquare => b"]",
        Word::LeftBrace => b"{",
        Word::RightBrace => b"}",
        Word::Semicolon => b";",
        Word::Comma => b",",
        Word::Ask => b"?",
        Word::Colon => b":",
        Word::Sign(op) => sign_text(op),
        Word::Step(StepOp::Increment) => b"++",
        Word::Step(StepOp::Decrement) => b"--",
        Word::Binary(op) => binary_text(op),
        Word::Assign(AssignOp::Plain) => b"=",
        Word::Assign(AssignOp::With(op)) => with_text(op),
        Word::Type(name) => type_text(name),
        Word::Keyword(keyword) => keyword_text(keyword),
        Word::Name | Word::Number | Word::Text | Word::Other => b"",
    }
}

// The first of these words that has this text.
fn find_word(words: &[Word], text: &[u8]) -> Option<Word>
    ensures { result ≡ spelling.find_word words.now text.now }
{
    for word in words {
        if text_of(*word) == text {
            return Some(*word);
        }
    }
    None
}

/// What the token is to the grammar.
pub fn word_of(token: &Token) -> Word
    ensures { result ≡ spelling.word_of token.now }
{
    match token.kind {
        TokenKind::Name => find_word(&RESERVED, token.text.as_slice()).unwrap_or(Word::Name),
        TokenKind::Number => Word::Number,
        TokenKind::Text => Word::Text,
        TokenKind::Mark => find_word(&MARKS, token.text.as_slice()).unwrap_or(Word::Other),
    }
}
