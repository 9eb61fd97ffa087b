//! Tokens as the grammar takes them.

ghost use Rattle.std.specs.Prelude.{◌≡◌};
ghost use Rattle.parse_expressions.specs.Terminals.{terminal_of, word_terminal, op_terminal};

use base::Pos;
use scan_go::{Keyword, Kind, Op, Token};
use syntax::{ArithmeticOp, BinOp, CompareOp, Name};

/// A terminal symbol of the grammar, with what the tree keeps of its token.
#[derive(Clone, Copy)]
pub enum Terminal {
    Identifier(Name),
    Number(Pos, u128),
    /// A string in double quotes, and the offset after its last byte.
    String(Pos, u32),
    Package,
    Const(Pos),
    Var(Pos),
    Type(Pos),
    Struct,
    Func(Pos),
    If(Pos),
    Else,
    For(Pos),
    Range(Pos),
    Break(Pos),
    Continue(Pos),
    Return(Pos),
    /// An operator that may stand between two operands; some of them are prefixes too.
    Operator(Pos, BinOp),
    /// `!`
    Not(Pos),
    Assign(Pos),
    /// An operator on ints and `=`.
    Update(Pos, ArithmeticOp),
    Define(Pos),
    Increment(Pos),
    Decrement(Pos),
    Comma,
    Semicolon,
    Colon,
    Period(Pos),
    Ellipsis,
    LeftParen(Pos),
    RightParen,
    LeftBracket(Pos),
    RightBracket,
    LeftBrace(Pos),
    RightBrace(Pos),
    /// A token that stands nowhere in the grammar.
    Other,
}

/// The terminal of a token.
pub fn terminal_of(token: Token) -> Terminal
    ensures { result ≡ terminal_of token }
{
    let pos = token.pos;
    match token.kind {
        Kind::Name => Terminal::Identifier(Name {
            pos,
            end: token.end,
        }),
        Kind::Number(n) => Terminal::Number(pos, n),
        Kind::String => Terminal::String(pos, token.end),
        Kind::Keyword(word) => word_terminal(word, pos),
        Kind::Op(op) => op_terminal(op, pos),
    }
}

fn word_terminal(word: Keyword, pos: Pos) -> Terminal
    ensures { result ≡ word_terminal word pos }
{
    match word {
        Keyword::Package => Terminal::Package,
        Keyword::Const => Terminal::Const(pos),
        Keyword::Var => Terminal::Var(pos),
        Keyword::Type => Terminal::Type(pos),
        Keyword::Struct => Terminal::Struct,
        Keyword::Func => Terminal::Func(pos),
        Keyword::If => Terminal::If(pos),
        Keyword::Else => Terminal::Else,
        Keyword::For => Terminal::For(pos),
        Keyword::Range => Terminal::Range(pos),
        Keyword::Break => Terminal::Break(pos),
        Keyword::Continue => Terminal::Continue(pos),
        Keyword::Return => Terminal::Return(pos),
        _ => Terminal::Other,
    }
}

fn op_terminal(op: Op, pos: Pos) -> Terminal
    ensures { result ≡ op_terminal op pos }
{
    match op {
        Op::Plus => Terminal::Operator(pos, BinOp::Arithmetic(ArithmeticOp::Add)),
        Op::Minus => Terminal::Operator(pos, BinOp::Arithmetic(ArithmeticOp::Sub)),
        Op::Star => Terminal::Operator(pos, BinOp::Arithmetic(ArithmeticOp::Mul)),
        Op::Slash => Terminal::Operator(pos, BinOp::Arithmetic(ArithmeticOp::Div)),
        Op::Percent => Terminal::Operator(pos, BinOp::Arithmetic(ArithmeticOp::Rem)),
        Op::And => Terminal::Operator(pos, BinOp::Arithmetic(ArithmeticOp::And)),
        Op::Or => Terminal::Operator(pos, BinOp::Arithmetic(ArithmeticOp::Or)),
        Op::Xor => Terminal::Operator(pos, BinOp::Arithmetic(ArithmeticOp::Xor)),
        Op::AndNot => Terminal::Operator(pos, BinOp::Arithmetic(ArithmeticOp::AndNot)),
        Op::Shl => Terminal::Operator(pos, BinOp::Arithmetic(ArithmeticOp::ShiftLeft)),
        Op::Shr => Terminal::Operator(pos, BinOp::Arithmetic(ArithmeticOp::ShiftRight)),
        Op::Equal => Terminal::Operator(pos, BinOp::Compare(CompareOp::Equal)),
        Op::NotEqual => Terminal::Operator(pos, BinOp::Compare(CompareOp::NotEqual)),
        Op::Less => Terminal::Operator(pos, BinOp::Compare(CompareOp::Less)),
        Op::LessEqual => Terminal::Operator(pos, BinOp::Compare(CompareOp::LessEqual)),
        Op::Greater => Terminal::Operator(pos, BinOp::Compare(CompareOp::Greater)),
        Op::GreaterEqual => Terminal::Operator(pos, BinOp::Compare(CompareOp::GreaterEqual)),
        Op::LogicalAnd => Terminal::Operator(pos, BinOp::LogicalAnd),
        Op::LogicalOr => Terminal::Operator(pos, BinOp::LogicalOr),
        Op::AddAssign => Terminal::Update(pos, ArithmeticOp::Add),
        Op::SubAssign => Terminal::Update(pos, ArithmeticOp::Sub),
        Op::MulAssign => Terminal::Update(pos, ArithmeticOp::Mul),
        Op::DivAssign => Terminal::Update(pos, ArithmeticOp::Div),
        Op::RemAssign => Terminal::Update(pos, ArithmeticOp::Rem),
        Op::AndAssign => Terminal::Update(pos, ArithmeticOp::And),
        Op::OrAssign => Terminal::Update(pos, ArithmeticOp::Or),
        Op::XorAssign => Terminal::Update(pos, ArithmeticOp::Xor),
        Op::AndNotAssign => Terminal::Update(pos, ArithmeticOp::AndNot),
        Op::ShlAssign => Terminal::Update(pos, ArithmeticOp::ShiftLeft),
        Op::ShrAssign => Terminal::Update(pos, ArithmeticOp::ShiftRight),
        Op::Not => Terminal::Not(pos),
        Op::Assign => Terminal::Assign(pos),
        Op::Define => Terminal::Define(pos),
        Op::Increment => Terminal::Increment(pos),
        Op::Decrement => Terminal::Decrement(pos),
        Op::Comma => Terminal::Comma,
        Op::Semicolon => Terminal::Semicolon,
        Op::Colon => Terminal::Colon,
        Op::Dot => Terminal::Period(pos),
        Op::Ellipsis => Terminal::Ellipsis,
        Op::LeftParen => Terminal::LeftParen(pos),
        Op::RightParen => Terminal::RightParen,
        Op::LeftBracket => Terminal::LeftBracket(pos),
        Op::RightBracket => Terminal::RightBracket,
        Op::LeftBrace => Terminal::LeftBrace(pos),
        Op::RightBrace => Terminal::RightBrace(pos),
        Op::Arrow | Op::Tilde => Terminal::Other,
    }
}
