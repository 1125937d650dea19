// The grammar of the assembler: how the tokens of a line are parsed as an instruction or as a label.

ghost use Rattle.std.specs.Prelude.{◌≡◌, ◌∷◌, option_map};
ghost use Rattle.bpf_asm.specs.Grammar as spec;

use crate::token::Token;
use bpf_model::instruction::{Condition, Form, Operator, Size, Source, Width};

/// A number with its sign. `size` is `None` if its absolute value is above 2^64 - 1.
#[derive(Clone, Copy)]
pub struct Value {
    pub negative: bool,
    pub size: Option<u64>,
}

/// The numbers aren't checked yet, so they can be out of range.
#[derive(Clone, Copy)]
pub struct Fields {
    pub dst: u8,
    pub src: u8,
    pub offset: Value,
    pub imm: Value,
}

/// `Label` is the label that the line's last token names. `Distance` counts units from the unit after the jump.
#[derive(Clone, Copy)]
pub enum Target {
    Label,
    Distance(Value),
}

/// `Wide` is the load of a 64-bit number: the register, and the number, `None` if that is above 2^64 - 1. A `Jump` has
/// its distance in its target and not in its fields.
#[derive(Clone, Copy)]
pub enum Statement {
    Plain(Form, Fields),
    Wide(u8, Option<u64>),
    Jump(Form, Fields, Target),
}

/// A parsed line, without its comment. A label's name isn't held: it is the line's first token.
#[derive(Clone, Copy)]
pub enum Line {
    Empty,
    Label,
    Statement(Statement),
}

fn plus(size: Option<u64>) -> Value
    ensures { result ≡ spec.plus size }
{
    Value {
        negative: false,
        size,
    }
}

fn minus(size: Option<u64>) -> Value
    ensures { result ≡ spec.minus size }
{
    Value {
        negative: true,
        size,
    }
}

fn exactly(n: u64) -> Value
    ensures { result ≡ spec.exactly n }
{
    plus(Some(n))
}

fn fields_of(dst: u8, src: u8, offset: Value, imm: Value) -> Fields
    ensures { result ≡ spec.fields dst src offset imm }
{
    Fields {
        dst,
        src,
        offset,
        imm,
    }
}

fn is_same(a: Width, b: Width) -> bool
    ensures { result ≡ spec.is_same a b }
{
    matches!(
        (a, b),
        (Width::Bits32, Width::Bits32) | (Width::Bits64, Width::Bits64)
    )
}

fn when(condition: bool, statement: Statement) -> Option<Statement>
    ensures { result ≡ spec.when condition statement }
{
    if condition { Some(statement) } else { None }
}

fn is_word(token: Token) -> bool
    ensures { result ≡ spec.is_word token }
{
    !matches!(
        token,
        Token::Number(_)
            | Token::Assign(..)
            | Token::Compare(_)
            | Token::Open
            | Token::Close
            | Token::Star
            | Token::Plus
            | Token::Minus
            | Token::Colon
    )
}

// What follows `r1 OPERATOR=`, or `r1 =` for MOV: a register of the same width as r1, or a number.
fn operand(
    operator: Operator,
    offset: u64,
    width: Width,
    dst: u8,
    tokens: &[Token],
) -> Option<Statement>
    ensures { result ≡ spec.operand operator offset width dst tokens.now }
{
    match tokens {
        [Token::Register(other, src)] => when(
            is_same(width, *other),
            Statement::Plain(
                Form::Arithmetic(operator, width, Source::Register),
                fields_of(dst, *src, exactly(offset), exactly(0)),
            ),
        ),
        [Token::Number(n)] => Some(Statement::Plain(
            Form::Arithmetic(operator, width, Source::Immediate),
            fields_of(dst, 0, exactly(offset), plus(*n)),
        )),
        [Token::Minus, Token::Number(n)] => Some(Statement::Plain(
            Form::Arithmetic(operator, width, Source::Immediate),
            fields_of(dst, 0, exactly(offset), minus(*n)),
        )),
        _ => None,
    }
}

fn target_of(tokens: &[Token]) -> Option<Target>
    ensures { result ≡ spec.target tokens.now }
{
    match tokens {
        [Token::Plus, Token::Number(n)] => Some(Target::Distance(plus(*n))),
        [Token::Minus, Token::Number(n)] => Some(Target::Distance(minus(*n))),
        [token] => {
            if is_word(*token) {
                Some(Target::Label)
            } else {
                None
            }
        }
        _ => None,
    }
}

// Parses `(SIZE *)`. Returns SIZE, which can be any token, and the tokens after the `)`.
fn sized(tokens: &[Token]) -> Option<(Token, &[Token])>
    ensures { option_map (λ p. (p.0, p.1.now)) result ≡ spec.sized tokens.now }
{
    match tokens {
        [Token::Open, size, Token::Star, Token::Close, rest @ ..] => Some((*size, rest)),
        _ => None,
    }
}

// Parses `(r2 + N)` or `(r2 - N)`. Returns the register, N with its sign, and the tokens after the `)`.
fn based(tokens: &[Token]) -> Option<(u8, Value, &[Token])>
    ensures { option_map (λ p. (p.0, p.1, p.2.now)) result ≡ spec.based tokens.now }
{
    match tokens {
        [
            Token::Open,
            Token::Register(Width::Bits64, base),
            sign,
            Token::Number(n),
            Token::Close,
            rest @ ..,
        ] => match *sign {
            Token::Plus => Some((*base, plus(*n), rest)),
            Token::Minus => Some((*base, minus(*n), rest)),
            _ => None,
        },
        _ => None,
    }
}

fn plain(form: Form, dst: u8, src: u8, offset: Value, imm: Value) -> Statement
    ensures { result ≡ spec.plain form dst src offset imm }
{
    Statement::Plain(form, fields_of(dst, src, offset, imm))
}

fn load_form(size: Token) -> Option<Form>
    ensures { result ≡ spec.load_form size }
{
    match size {
        Token::Unsigned(size) => Some(Form::Load(size)),
        Token::Signed(size) => Some(Form::LoadSigned(size)),
        _ => None,
    }
}

fn load(dst: u8, tokens: &[Token]) -> Option<Statement>
    ensures { result ≡ spec.load_of dst (spec.sized tokens.now) }
{
    let (size, rest) = sized(tokens)?;
    let form = load_form(size)?;
    let (base, offset, rest) = based(rest)?;
    match rest {
        [] => Some(plain(form, dst, base, offset, exactly(0))),
        _ => None,
    }
}

// The bits of a size from which a MOV of this width can extend the sign.
fn extension(width: Width, size: Size) -> Option<u64>
    ensures { result ≡ spec.extension width size }
{
    match (width, size) {
        (_, Size::Byte) => Some(8),
        (_, Size::Half) => Some(16),
        (Width::Bits64, Size::Word) => Some(32),
        _ => None,
    }
}

fn extend(width: Width, dst: u8, src: u8, size: Size) -> Option<Statement>
    ensures { result ≡ spec.extend width dst src (spec.extension width size) }
{
    let bits = extension(width, size)?;
    Some(plain(
        Form::Arithmetic(Operator::Mov, width, Source::Register),
        dst,
        src,
        exactly(bits),
        exactly(0),
    ))
}

fn swap(width: Width, source: Source, bits: u64, dst: u8) -> Statement
    ensures { result ≡ spec.swap width source bits dst }
{
    plain(
        Form::Arithmetic(Operator::SwapBytes, width, source),
        dst,
        0,
        exactly(0),
        exactly(bits),
    )
}

fn negation(width: Width, dst: u8) -> Statement
    ensures { result ≡ spec.plain (Form.Arithmetic Operator.Neg width Source.Immediate) dst 0
        (spec.exactly 0) (spec.exactly 0) }
{
    plain(
        Form::Arithmetic(Operator::Neg, width, Source::Immediate),
        dst,
        0,
        exactly(0),
        exactly(0),
    )
}

fn is_full(width: Width) -> bool
    ensures { result ≡ spec.is_full width }
{
    matches!(width, Width::Bits64)
}

// NEG: after `r1 = -`, the same register again.
fn negated(width: Width, dst: u8, tokens: &[Token]) -> Option<Statement>
    ensures { result ≡ spec.only_assigned width dst (Token.Minus ∷ tokens.now) }
{
    match tokens {
        [Token::Register(other, src)] => when(
            is_same(width, *other) && dst == *src,
            negation(width, dst),
        ),
        _ => None,
    }
}

// A sign extension, as in `r1 = (s8)r2`, after `r1 = (`.
fn extended(width: Width, dst: u8, tokens: &[Token]) -> Option<Statement>
    ensures { result ≡ spec.only_assigned width dst (Token.Open ∷ tokens.now) }
{
    match tokens {
        [
            Token::Signed(size),
            Token::Close,
            Token::Register(other, src),
        ] => {
            if is_same(width, *other) {
                extend(width, dst, *src, *size)
            } else {
                None
            }
        }
        _ => None,
    }
}

// END (a swap of bytes): after `r1 = le16` and the like, the same register again, of 64 bits.
fn swapped(
    order: Width,
    source: Source,
    bits: u64,
    width: Width,
    dst: u8,
    tokens: &[Token],
) -> Option<Statement>
    ensures { result ≡ spec.only_assigned width dst (Token.Swap order source bits ∷ tokens.now) }
{
    match tokens {
        [Token::Register(Width::Bits64, src)] => when(
            is_full(width) && dst == *src,
            swap(order, source, bits, dst),
        ),
        _ => None,
    }
}

// A wide load (of a 64-bit number): `ll` after `r1 = N`. `n` is `None` if N is above 2^64 - 1.
fn wide(n: Option<u64>, width: Width, dst: u8, tokens: &[Token]) -> Option<Statement>
    ensures { result ≡ spec.only_assigned width dst (Token.Number n ∷ tokens.now) }
{
    match tokens {
        [Token::Long] => when(is_full(width), Statement::Wide(dst, n)),
        _ => None,
    }
}

// What only `=` begins: NEG, a sign extension, END, a wide load or a load, and not a MOV of a register or a number.
fn only_assigned(width: Width, dst: u8, tokens: &[Token]) -> Option<Statement>
    ensures { result ≡ spec.only_assigned width dst tokens.now }
{
    let (first, rest) = tokens.split_first()?;
    match *first {
        Token::Minus => negated(width, dst, rest),
        Token::Open => extended(width, dst, rest),
        Token::Swap(order, source, bits) => swapped(order, source, bits, width, dst, rest),
        Token::Number(n) => wide(n, width, dst, rest),
        Token::Star if is_full(width) => load(dst, rest),
        _ => None,
    }
}

fn assigned(width: Width, dst: u8, tokens: &[Token]) -> Option<Statement>
    ensures { result ≡ spec.assigned width dst tokens.now }
{
    match only_assigned(width, dst, tokens) {
        Some(statement) => Some(statement),
        None => operand(Operator::Mov, 0, width, dst, tokens),
    }
}

// What follows the address of a store: `=`, then a 64-bit register or a number.
fn stored(size: Size, base: u8, offset: Value, tokens: &[Token]) -> Option<Statement>
    ensures { result ≡ spec.stored size base offset tokens.now }
{
    match tokens {
        [
            Token::Assign(Operator::Mov, _),
            Token::Register(Width::Bits64, src),
        ] => Some(plain(Form::StoreRegister(size), base, *src, offset, exactly(0))),
        [Token::Assign(Operator::Mov, _), Token::Number(n)] => Some(plain(
            Form::StoreImmediate(size),
            base,
            0,
            offset,
            plus(*n),
        )),
        [
            Token::Assign(Operator::Mov, _),
            Token::Minus,
            Token::Number(n),
        ] => Some(plain(Form::StoreImmediate(size), base, 0, offset, minus(*n))),
        _ => None,
    }
}

fn store(tokens: &[Token]) -> Option<Statement>
    ensures { result ≡ spec.store_of (spec.sized tokens.now) }
{
    let (size, rest) = sized(tokens)?;
    match size {
        Token::Unsigned(size) => {
            let (base, offset, rest) = based(rest)?;
            stored(size, base, offset, rest)
        }
        _ => None,
    }
}

fn jump_to(form: Form, fields: Fields, tokens: &[Token]) -> Option<Statement>
    ensures { result ≡ spec.jump_to form fields (spec.target tokens.now) }
{
    let target = target_of(tokens)?;
    Some(Statement::Jump(form, fields, target))
}

// After `if r1 CMP r2`: `goto` and a target. `width` and `dst` are of r1, `other` and `src` of r2.
fn register_branch(
    condition: Condition,
    width: Width,
    dst: u8,
    other: Width,
    src: u8,
    tokens: &[Token],
) -> Option<Statement>
    ensures { result ≡ spec.branch condition width dst (Token.Register other src ∷ tokens.now) }
{
    let (first, rest) = tokens.split_first()?;
    match *first {
        Token::Goto if is_same(width, other) => jump_to(
            Form::Branch(condition, width, Source::Register),
            fields_of(dst, src, exactly(0), exactly(0)),
            rest,
        ),
        _ => None,
    }
}

// After `if r1 CMP N`: `goto` and a target. `n` is `None` if N is above 2^64 - 1.
fn number_branch(
    condition: Condition,
    width: Width,
    dst: u8,
    n: Option<u64>,
    tokens: &[Token],
) -> Option<Statement>
    ensures { result ≡ spec.branch condition width dst (Token.Number n ∷ tokens.now) }
{
    let (first, rest) = tokens.split_first()?;
    match *first {
        Token::Goto => jump_to(
            Form::Branch(condition, width, Source::Immediate),
            fields_of(dst, 0, exactly(0), plus(n)),
            rest,
        ),
        _ => None,
    }
}

// After `if r1 CMP -`: a number, `goto` and a target.
fn minus_branch(condition: Condition, width: Width, dst: u8, tokens: &[Token]) -> Option<Statement>
    ensures { result ≡ spec.branch condition width dst (Token.Minus ∷ tokens.now) }
{
    match tokens {
        [Token::Number(n), Token::Goto, rest @ ..] => jump_to(
            Form::Branch(condition, width, Source::Immediate),
            fields_of(dst, 0, exactly(0), minus(*n)),
            rest,
        ),
        _ => None,
    }
}

// After `if r1 CMP`: the second operand, `goto` and a target.
fn branch(condition: Condition, width: Width, dst: u8, tokens: &[Token]) -> Option<Statement>
    ensures { result ≡ spec.branch condition width dst tokens.now }
{
    let (first, rest) = tokens.split_first()?;
    match *first {
        Token::Register(other, src) => register_branch(condition, width, dst, other, src, rest),
        Token::Number(n) => number_branch(condition, width, dst, n, rest),
        Token::Minus => minus_branch(condition, width, dst, rest),
        _ => None,
    }
}

fn no_fields() -> Fields
    ensures { result ≡ spec.no_fields }
{
    fields_of(0, 0, exactly(0), exactly(0))
}

// What follows a register at the start of a line.
fn changed(width: Width, dst: u8, tokens: &[Token]) -> Option<Statement>
    ensures { result ≡ spec.statement (Token.Register width dst ∷ tokens.now) }
{
    let (first, rest) = tokens.split_first()?;
    match *first {
        Token::Assign(Operator::Mov, _) => assigned(width, dst, rest),
        Token::Assign(operator, offset) => operand(operator, offset, width, dst, rest),
        _ => None,
    }
}

fn conditional(tokens: &[Token]) -> Option<Statement>
    ensures { result ≡ spec.statement (Token.If ∷ tokens.now) }
{
    match tokens {
        [
            Token::Register(width, dst),
            Token::Compare(condition),
            rest @ ..,
        ] => branch(*condition, *width, *dst, rest),
        _ => None,
    }
}

// A number, with or without a `-` before it, after `call`.
fn call(tokens: &[Token]) -> Option<Statement>
    ensures { result ≡ spec.statement (Token.Call ∷ tokens.now) }
{
    match tokens {
        [Token::Number(n)] => Some(plain(Form::Call, 0, 0, exactly(0), plus(*n))),
        [Token::Minus, Token::Number(n)] => Some(plain(Form::Call, 0, 0, exactly(0), minus(*n))),
        _ => None,
    }
}

fn exit(tokens: &[Token]) -> Option<Statement>
    ensures { result ≡ spec.statement (Token.Exit ∷ tokens.now) }
{
    match tokens {
        [] => Some(plain(Form::Exit, 0, 0, exactly(0), exactly(0))),
        _ => None,
    }
}

pub fn statement_of(tokens: &[Token]) -> Option<Statement>
    ensures { result ≡ spec.statement tokens.now }
{
    let (first, rest) = tokens.split_first()?;
    match *first {
        Token::Register(width, dst) => changed(width, dst, rest),
        Token::Star => store(rest),
        Token::Goto => jump_to(Form::Ja, no_fields(), rest),
        Token::GotoLong => jump_to(Form::Ja32, no_fields(), rest),
        Token::If => conditional(rest),
        Token::Call => call(rest),
        Token::Exit => exit(rest),
        _ => None,
    }
}

pub fn line_of(tokens: &[Token]) -> Option<Line>
    ensures { result ≡ spec.line_of tokens.now }
{
    match tokens {
        [] => Some(Line::Empty),
        [token, Token::Colon] => {
            if is_word(*token) {
                Some(Line::Label)
            } else {
                None
            }
        }
        _ => Some(Line::Statement(statement_of(tokens)?)),
    }
}
