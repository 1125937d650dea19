//! The words that describe a request, read one by one.

ghost use Rattle.std.specs.Prelude.{◌≡◌, ◌≢◌, Some, IfOk, map, string_bytes, IsTrue, true, false};
ghost use Rattle.std.specs.List.{All};
ghost use Rattle.bpf_model.specs.declared.context.Layout.TheVariants as layouts;
ghost use Rattle.explaining.specs.Named.{is_of_second, setting_of};
ghost use Rattle.explaining.specs.Distinct.{HasNewName};

use crate::names::{Name, Setting, least_of, most_of, name_of, setting_of};
use bpf_model::context::Layout;
use std::alloc::Global;

/// Why a word gives no field a number.
#[derive(Clone, Copy)]
pub enum WordFault {
    /// It isn't NAME=NUMBER, no field has the name, or the field doesn't take the number.
    NoSetting,
    /// A word before it gives this field a number.
    Twice,
    /// The layout has no such field.
    OfSecondLayout,
}

pub enum WordsFault {
    /// The number of the word, counted from 0.
    Word(usize, WordFault),
    OutOfMemory,
}

fn is_of_second(name: Name) -> bool
    ensures { result ≡ is_of_second name }
{
    match name {
        Name::Clears | Name::OpenPoints => true,
        _ => false,
    }
}

fn is_same(one: Name, other: Name) -> bool
    ensures { result ≡ false → one ≢ other }
{
    one == other
}

fn is_named(settings: &[Setting], name: Name) -> bool
    ensures { result ≡ false → HasNewName settings.now name }
{
    let mut rest = settings;
    while let [setting, after @ ..] = rest {
        if is_same(setting.name, name) {
            return true;
        }
        rest = after;
    }
    false
}

fn new_setting(layout: Layout, settings: &[Setting], word: &str) -> Result<Setting, WordFault>
    ensures setting { IfOk result (λ setting. setting_of word.now ≡ Some setting) }
    ensures new { IfOk result (λ setting. HasNewName settings.now setting.name) }
    ensures fits { IfOk result (λ setting. layout ≡ layouts.One → is_of_second setting.name ≡ false) }
{
    let Some(setting) = setting_of(word) else {
        return Err(WordFault::NoSetting);
    };
    if is_of_second(setting.name) && layout == Layout::One {
        return Err(WordFault::OfSecondLayout);
    }
    if is_named(settings, setting.name) {
        return Err(WordFault::Twice);
    }
    Ok(setting)
}

/// Reads the words of a request, in their order, for a rule of this layout.
pub fn settings_of(
    alloc: Global,
    layout: Layout,
    words: &[String],
) -> Result<Vec<Setting>, WordsFault>
    // proved: All words are read, in their order
    ensures { IfOk result (λ settings. map (λ s. Some s) settings.items ≡ map setting_of (map string_bytes words.now)) }
{
    let mut settings = Vec::new(alloc);
    let mut rest = words;
    let mut number = 0usize;
    while let [word, after @ ..] = rest {
        match new_setting(layout, settings.as_slice(), word) {
            Ok(setting) => {
                if settings.push(setting).is_err() {
                    return Err(WordsFault::OutOfMemory);
                }
            }
            Err(fault) => return Err(WordsFault::Word(number, fault)),
        }
        rest = after;
        number = number.wrapping_add(1);
    }
    Ok(settings)
}

/// What is wrong with a word that gives no field a number.
#[derive(Clone, Copy)]
pub enum WordFlaw {
    NoEquals,
    NoSuchField,
    /// The kind's number or word.
    Kind,
    /// A counter's value and bound.
    Counter,
    /// The field takes numbers from the first to the second.
    Range(u64, u64),
}

/// Says what is wrong with a word that gives no field a number.
pub fn flaw_of(word: &str) -> WordFlaw {
    match word.split_once('=') {
        Some((text, _)) => match name_of(text) {
            Some(Name::Kind) => WordFlaw::Kind,
            Some(Name::Counter(_)) => WordFlaw::Counter,
            Some(name) => WordFlaw::Range(least_of(name), most_of(name)),
            None => WordFlaw::NoSuchField,
        },
        None => WordFlaw::NoEquals,
    }
}
