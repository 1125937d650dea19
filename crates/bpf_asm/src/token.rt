// The tokens of an assembler text, and the tables of symbols and words that have a token of their own.

use bpf_model::instruction::{Condition, Operator, Size, Source, Width};

#[derive(Clone, Copy)]
pub enum Token {
    Register(Width, u8),
    /// A number; `None` if it is above 2^64 - 1.
    Number(Option<u64>),
    /// An operator with its `=`, as in `+=`, and the instruction's offset: 1 for `s/=` and `s%=`, else 0. For `=` alone
    /// the number isn't used.
    Assign(Operator, u64),
    Compare(Condition),
    Unsigned(Size),
    Signed(Size),
    /// A word for END, `le16` to `bswap64`: the instruction's width and source, and the number of bits.
    Swap(Width, Source, u64),
    If,
    Goto,
    GotoLong,
    Call,
    Exit,
    Long,
    Open,
    Close,
    Star,
    Plus,
    Minus,
    Colon,
    /// Any other word, such as a label.
    Name,
}

pub const SYMBOLS: [(&[u8], Token); 31] = [
    (b"+=", Token::Assign(Operator::Add, 0)),
    (b"-=", Token::Assign(Operator::Sub, 0)),
    (b"*=", Token::Assign(Operator::Mul, 0)),
    (b"/=", Token::Assign(Operator::Div, 0)),
    (b"s/=", Token::Assign(Operator::Div, 1)),
    (b"%=", Token::Assign(Operator::Mod, 0)),
    (b"s%=", Token::Assign(Operator::Mod, 1)),
    (b"|=", Token::Assign(Operator::Or, 0)),
    (b"&=", Token::Assign(Operator::And, 0)),
    (b"^=", Token::Assign(Operator::Xor, 0)),
    (b"<<=", Token::Assign(Operator::Lsh, 0)),
    (b">>=", Token::Assign(Operator::Rsh, 0)),
    (b"s>>=", Token::Assign(Operator::Arsh, 0)),
    (b"=", Token::Assign(Operator::Mov, 0)),
    (b"==", Token::Compare(Condition::Jeq)),
    (b"!=", Token::Compare(Condition::Jne)),
    (b">", Token::Compare(Condition::Jgt)),
    (b">=", Token::Compare(Condition::Jge)),
    (b"<", Token::Compare(Condition::Jlt)),
    (b"<=", Token::Compare(Condition::Jle)),
    (b"s>", Token::Compare(Condition::Jsgt)),
    (b"s>=", Token::Compare(Condition::Jsge)),
    (b"s<", Token::Compare(Condition::Jslt)),
    (b"s<=", Token::Compare(Condition::Jsle)),
    (b"&", Token::Compare(Condition::Jset)),
    (b"(", Token::Open),
    (b")", Token::Close),
    (b"*", Token::Star),
    (b"+", Token::Plus),
    (b"-", Token::Minus),
    (b":", Token::Colon),
];

pub const WORDS: [(&[u8], Token); 22] = [
    (b"if", Token::If),
    (b"goto", Token::Goto),
    (b"gotol", Token::GotoLong),
    (b"call", Token::Call),
    (b"exit", Token::Exit),
    (b"ll", Token::Long),
    (b"u8", Token::Unsigned(Size::Byte)),
    (b"u16", Token::Unsigned(Size::Half)),
    (b"u32", Token::Unsigned(Size::Word)),
    (b"u64", Token::Unsigned(Size::Double)),
    (b"s8", Token::Signed(Size::Byte)),
    (b"s16", Token::Signed(Size::Half)),
    (b"s32", Token::Signed(Size::Word)),
    (b"le16", Token::Swap(Width::Bits32, Source::Immediate, 16)),
    (b"le32", Token::Swap(Width::Bits32, Source::Immediate, 32)),
    (b"le64", Token::Swap(Width::Bits32, Source::Immediate, 64)),
    (b"be16", Token::Swap(Width::Bits32, Source::Register, 16)),
    (b"be32", Token::Swap(Width::Bits32, Source::Register, 32)),
    (b"be64", Token::Swap(Width::Bits32, Source::Register, 64)),
    (
        b"bswap16",
        Token::Swap(Width::Bits64, Source::Immediate, 16),
    ),
    (
        b"bswap32",
        Token::Swap(Width::Bits64, Source::Immediate, 32),
    ),
    (
        b"bswap64",
        Token::Swap(Width::Bits64, Source::Immediate, 64),
    ),
];

ghost use Rattle.bpf_asm.specs.Tables.{TablesMatchDefinitions};

/// A law: the tables are those of `specs/Tables.antt`.
pub fn tables()
    ensures { TablesMatchDefinitions }
{}
