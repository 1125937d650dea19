// The lexer: splits a line into tokens.

ghost use Rattle.std.specs.Prelude.{◌≡◌, ◌≤◌, ◌<◌, ◌+◌, ◌-◌, ◌*◌, map, length, take, drop, slice_index, nat_eq, true};
ghost use Rattle.std.specs.Prelude.{IsTrue, IfOk, OnOk, option_map};
ghost use Rattle.std.specs.List.{prefix_len};
ghost use Rattle.std.specs.Char.{digit_value, is_ascii_digit, is_ascii_hexdigit};
ghost use Rattle.std.specs.List.{list_all};
ghost use Rattle.std.specs.Str.Parse.{digits_value};
ghost use Rattle.bpf_asm.specs.Lex as spec;

use crate::token::{SYMBOLS, Token, WORDS};
use bpf_model::instruction::Width;
use std::alloc::{AllocError, Global};

fn byte(text: &[u8], at: usize) -> u8
    ensures { result ≡ slice_index text.now at }
{
    if at < text.len() { text[at] } else { 0 }
}

fn is_blank(b: u8) -> bool
    ensures { result ≡ spec.is_blank b }
{
    b == b' ' || b == b'\t'
}

fn begins_word(b: u8) -> bool
    ensures { result ≡ spec.begins_word b }
{
    b.is_ascii_alphabetic() || b == b'_'
}

fn continues_word(b: u8) -> bool
    ensures { result ≡ spec.continues_word b }
{
    b.is_ascii_alphabetic() || b == b'_' || b.is_ascii_digit()
}

fn word_len(text: &[u8]) -> usize
    ensures value { result ≡ spec.word_len text.now }
    ensures within { result ≤ length text.now }
{
    if !begins_word(byte(text, 0)) {
        return 0;
    }
    let mut end = 0;
    while end < text.len() && continues_word(text[end]) {
        end += 1;
    }
    end
}

fn begins_hex(text: &[u8]) -> bool
    ensures value { result ≡ spec.begins_hex text.now }
    ensures within { IsTrue result → 3 ≤ length text.now }
{
    2 < text.len() && text[0] == b'0' && text[1] == b'x' && text[2].is_ascii_hexdigit()
}

fn hex_len(text: &[u8]) -> usize
    requires { 2 ≤ length text.now }
    ensures value { result ≡ 2 + prefix_len is_ascii_hexdigit (drop 2 text.now) }
    ensures within { result ≤ length text.now }
{
    let mut end = 2;
    while end < text.len() && text[end].is_ascii_hexdigit() {
        end += 1;
    }
    end
}

fn digits_len(text: &[u8]) -> usize
    ensures value { result ≡ prefix_len is_ascii_digit text.now }
    ensures within { result ≤ length text.now }
{
    let mut end = 0;
    while end < text.len() && text[end].is_ascii_digit() {
        end += 1;
    }
    end
}

fn number_len(text: &[u8]) -> usize
    ensures value { result ≡ spec.number_len text.now }
    ensures within { result ≤ length text.now }
{
    if begins_hex(text) {
        hex_len(text)
    } else {
        digits_len(text)
    }
}

fn symbol_len(mut table: &[(&[u8], Token)], text: &[u8]) -> usize
    ensures value { result ≡ spec.symbol_len (map (λ s. (s.0.now, s.1)) table.entry.now) text.now }
    ensures within { result ≤ length text.now }
{
    let mut longest = 0;
    while let [entry, rest @ ..] = table {
        if text.starts_with(entry.0) && entry.0.len() > longest {
            longest = entry.0.len();
        }
        table = rest;
    }
    longest
}

fn longest_symbol(text: &[u8]) -> usize
    ensures value { result ≡ spec.symbol_len spec.symbols text.now }
    ensures within { result ≤ length text.now }
{
    symbol_len(&SYMBOLS, text)
}

/// How many bytes the longest token at the start of a text has; 0 if none begins there.
pub fn token_len(text: &[u8]) -> usize
    ensures value { result ≡ spec.token_len text.now }
    ensures within { result ≤ length text.now }
{
    if byte(text, 0).is_ascii_digit() {
        number_len(text)
    } else {
        word_len(text).max(longest_symbol(text))
    }
}

fn lookup(mut table: &[(&[u8], Token)], text: &[u8], other: Token) -> Token
    ensures { result ≡ spec.lookup (map (λ s. (s.0.now, s.1)) table.entry.now) text.now other }
{
    while let [entry, rest @ ..] = table {
        if entry.0 == text {
            return entry.1;
        }
        table = rest;
    }
    other
}

// The register of this width whose number, 0 to 10 without leading zeros, follows the first byte; `Name` for any other
// text.
fn numbered(width: Width, text: &[u8]) -> Token
    ensures { result ≡ spec.numbered width text.now }
{
    match text {
        [_, d] => {
            if d.is_ascii_digit() {
                Token::Register(width, *d - b'0')
            } else {
                Token::Name
            }
        }
        [_, d, e] => {
            if *d == b'1' && *e == b'0' {
                Token::Register(width, 10)
            } else {
                Token::Name
            }
        }
        _ => Token::Name,
    }
}

fn register_or_name(text: &[u8]) -> Token
    ensures { result ≡ spec.register_or_name text.now }
{
    match byte(text, 0) {
        b'r' => numbered(Width::Bits64, text),
        b'w' => numbered(Width::Bits32, text),
        _ => Token::Name,
    }
}

/// A comment begins with `//`.
pub fn code_len(line: &[u8]) -> usize
    ensures value { result ≡ spec.code_len line.now }
    ensures within { result ≤ length line.now }
{
    let mut at = 0;
    while at < line.len() && !(line[at] == b'/' && byte(line, at + 1) == b'/') {
        at += 1;
    }
    at
}

/// Splits a line without its comment and its LF into the texts of its tokens. `None` if it has anything else in it but
/// spaces and tabs.
pub fn split<'a>(alloc: Global, text: &'a [u8]) -> Result<Option<Vec<&'a [u8]>>, AllocError>
    ensures { IfOk result (λ found. option_map (λ v. map (λ t. t.now) v.items) found ≡ spec.split text.now) }
{
    let mut words = Vec::new(alloc);
    let mut rest = text;
    while !rest.is_empty() {
        if is_blank(rest[0]) {
            rest = &rest[1..];
        } else {
            let len = token_len(rest);
            if len == 0 {
                return Ok(None);
            }
            let (word, after) = rest.split_at(len);
            words.push(word)?;
            rest = after;
        }
    }
    Ok(Some(words))
}

fn digit(b: u8) -> u8
    ensures { result ≡ digit_value b }
{
    match b {
        b'0'..=b'9' => b - b'0',
        b'A'..=b'Z' => b - b'A' + 10,
        b'a'..=b'z' => b - b'a' + 10,
        _ => 36,
    }
}

fn with_digit(value: Option<u64>, radix: u8, digit: u8) -> Option<u64>
    ensures { result ≡ spec.with_digit radix digit value }
{
    value?
        .checked_mul(u64::from(radix))?
        .checked_add(u64::from(digit))
}

fn digits_value_of(radix: u8, text: &[u8]) -> Option<u64>
    requires radix { (2 ≤ radix) × (radix ≤ 16) }
    ensures { result ≡ spec.small (digits_value radix text.now) }
{
    let mut value = Some(0);
    for i in 0..text.len() {
        value = with_digit(value, radix, digit(text[i]));
    }
    value
}

fn lookup_word(text: &[u8], other: Token) -> Token
    ensures { result ≡ spec.lookup spec.words text.now other }
{
    lookup(&WORDS, text, other)
}

fn lookup_symbol(text: &[u8], other: Token) -> Token
    ensures { result ≡ spec.lookup spec.symbols text.now other }
{
    lookup(&SYMBOLS, text, other)
}

// In decimal digits, or in hexadecimal ones after `0x`; `None` if it is 2^64 or more.
fn number(text: &[u8]) -> Option<u64>
    ensures { result ≡ spec.small (spec.number_value text.now) }
{
    if begins_hex(text) {
        digits_value_of(16, &text[2..])
    } else {
        digits_value_of(10, text)
    }
}

pub fn kind_of(text: &[u8]) -> Token
    ensures { result ≡ spec.kind_of text.now }
{
    if byte(text, 0).is_ascii_digit() {
        Token::Number(number(text))
    } else {
        lookup_symbol(text, lookup_word(text, register_or_name(text)))
    }
}

pub fn kinds(alloc: Global, words: &[&[u8]]) -> Result<Vec<Token>, AllocError>
    ensures { IfOk result (λ v. v.items ≡ map spec.kind_of (map (λ t. t.now) words.now)) }
{
    let mut tokens = Vec::new(alloc);
    let mut rest = words;
    while let [word, after @ ..] = rest {
        tokens.push(kind_of(*word))?;
        rest = after;
    }
    Ok(tokens)
}
