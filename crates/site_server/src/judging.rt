//! Judging the peer of a connection by the first bytes that it sends.
ghost use Rattle.std.specs.Prelude.{◌≡◌, ◌≤◌, ◌<◌, ◌++◌, List, ℕ, IsTrue, IsFalse, bytes_eq, length, not};
ghost use Rattle.std.specs.List.{list_any, list_all, prefix_len};
ghost use Rattle.site_server.specs.Guard.{asks_for_path, begins_otherwise, is_control, ends_word, is_method, speaks_another_protocol, starts_path};
ghost use Rattle.site_server.specs.Guarding.{is_capital, IsVerdict, Tells, begins_with_control, either_verdict, path_verdict, verdict_on};

/// The methods of HTTP, and the word with which HTTP/2 begins.
const METHODS: [&str; 10] = [
    "GET", "HEAD", "POST", "PUT", "DELETE", "CONNECT", "OPTIONS", "TRACE", "PATCH", "PRI",
];

/// A first word of more bytes makes a line that is too long.
const WORD_BYTES: usize = 8400;

#[derive(Clone, Copy)]
pub enum Verdict {
    /// More bytes are needed to say who.
    Unclear,
    /// A till, a dispenser or the owner.
    Client,
    Stranger,
}

fn is_control(byte: u8) -> bool
    ensures { result ≡ is_control byte }
{
    (byte < 32 && byte != b'\n') || byte == 127
}

fn ends_word(byte: u8) -> bool
    ensures { result ≡ ends_word byte }
{
    byte == b' ' || byte == b'\t' || byte == b'\r' || byte == b'\n'
}

fn is_among(word: &[u8], words: &[&str]) -> bool
    ensures { result ≡ list_any (λ known. bytes_eq known.now word.now) words.now }
{
    words.iter().any(|known| known.as_bytes() == word)
}

fn is_method(word: &[u8]) -> bool
    ensures { result ≡ is_method word.now }
{
    is_among(word, &METHODS)
}

fn are_capitals(bytes: &[u8]) -> bool
    ensures { result ≡ list_all (λ b. is_capital b) bytes.now }
{
    bytes.iter().all(|byte| byte.is_ascii_uppercase())
}

/// How many bytes come before the first that ends a word; all, if none does.
fn word_length(bytes: &[u8]) -> usize
    ensures length { result ≡ prefix_len (λ b. not (ends_word b)) bytes.now }
    ensures bound { result ≤ length bytes.now }
{
    bytes.iter().take_while(|byte| !ends_word(**byte)).count()
}

fn begins_with_control(bytes: &[u8]) -> bool
    ensures { result ≡ begins_with_control bytes.now }
{
    match bytes.first() {
        Some(first) => is_control(*first),
        None => false,
    }
}

fn verdict_on(is_stranger: bool) -> Verdict
    ensures { result ≡ verdict_on is_stranger }
{
    if is_stranger {
        Verdict::Stranger
    } else {
        Verdict::Client
    }
}

fn judge_opening(bytes: &[u8]) -> Verdict
    ensures { Tells begins_otherwise bytes.now result }
{
    if begins_with_control(bytes) {
        return Verdict::Stranger;
    }
    let length = word_length(bytes);
    if length < bytes.len() {
        return verdict_on(is_method(&bytes[..length]));
    }
    if bytes.len() < 8 && are_capitals(bytes) {
        Verdict::Unclear
    } else {
        Verdict::Client
    }
}

/// Whether a path is asked for, by the bytes behind the first word.
fn judge_behind(behind: &[u8]) -> Verdict
    ensures { result ≡ path_verdict behind.now }
{
    match behind {
        [] => Verdict::Unclear,
        [first] => {
            if *first == b' ' {
                Verdict::Unclear
            } else {
                Verdict::Client
            }
        }
        [first, second, ..] => verdict_on(*first == b' ' && *second == b'/'),
    }
}

fn judge_path(bytes: &[u8]) -> Verdict
    ensures { Tells asks_for_path bytes.now result }
{
    let length = word_length(bytes);
    if length > WORD_BYTES {
        return Verdict::Client;
    }
    judge_behind(&bytes[length..])
}

fn either(first: Verdict, second: Verdict) -> Verdict
    ensures { result ≡ either_verdict first second }
{
    match (first, second) {
        (Verdict::Stranger, _) => Verdict::Stranger,
        (Verdict::Client, second) => second,
        (Verdict::Unclear, Verdict::Stranger) => Verdict::Stranger,
        (Verdict::Unclear, Verdict::Client) => Verdict::Unclear,
        (Verdict::Unclear, Verdict::Unclear) => Verdict::Unclear,
    }
}

/// After 8,402 bytes it's never unclear who the peer is, nor after a whole line.
pub(crate) fn judge(bytes: &[u8]) -> Verdict
    // proved: A verdict holds whatever comes behind | a_method_is_let_in
    // proved: A path is no second word of ours | page_names_its_own_method
    ensures { IsVerdict bytes.now result }
{
    either(judge_opening(bytes), judge_path(bytes))
}

fn begins_otherwise(bytes: &[u8]) -> bool
    ensures { result ≡ begins_otherwise bytes.now }
{
    begins_with_control(bytes) || is_method(&bytes[..word_length(bytes)])
}

fn starts_path(bytes: &[u8]) -> bool
    ensures { result ≡ starts_path bytes.now }
{
    match bytes {
        [first, second, ..] => *first == b' ' && *second == b'/',
        [_] => false,
        [] => false,
    }
}

fn asks_for_path(bytes: &[u8]) -> bool
    ensures { result ≡ asks_for_path bytes.now }
{
    let length = word_length(bytes);
    length <= WORD_BYTES && starts_path(&bytes[length..])
}

/// Judges the peer by all bytes that it sends.
pub(crate) fn judge_all(bytes: &[u8]) -> Verdict
    ensures { result ≡ verdict_on (speaks_another_protocol bytes.now) }
{
    verdict_on(begins_otherwise(bytes) || asks_for_path(bytes))
}
