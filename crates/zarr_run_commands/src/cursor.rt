//! The tokens of a JSON text, read from the left: brackets, texts without escapes, and whole
//! numbers of few digits, `true` and `false`, each of which ends right before a comma or a bracket.
//! Where another form comes next, no token is read.
ghost use Rattle.std.specs.Prelude.{◌≡◌, ℕ, List, ◌+◌, ◌-◌, ◌<◌, ◌≤◌, ◌∷◌, ◌++◌, [], Some, None, true, false, length, take, drop, option_map, IfOk, IfSome, OnSome};
ghost use Rattle.std.specs.Str.Parse.{AllDigits, digits_value};
ghost use Rattle.json.specs.Json.{read_key};
ghost use Rattle.json.specs.Lex as lex;
ghost use Rattle.json.specs.Lex.{begins_colon, lex, between, in_string, punctuate};
ghost use Rattle.json.specs.Print.{IsNumber, token_text};
ghost use Rattle.json.specs.Text.{content, plain};
ghost use Rattle.json.specs.Token as token;
ghost use Rattle.json.specs.Word.{ends_word};
ghost use Rattle.serde_json.specs.Data.{unsigned};
ghost use Rattle.serde_json.specs.Read.{number_of};
ghost use Rattle.zarr_run_commands.specs.Cursors.{place_of, tokens_from};

use std::marker::Model;

/// No number of so many digits reaches 2^64.
const FEW_DIGITS: usize = 19;

/// What may come next in a text.
#[derive(Clone, Copy, Debug, Drop)]
pub(crate) enum Stand {
    /// A value, a member or the end of a list or an object.
    Fresh,
    /// That end, or the end of the text.
    AfterValue,
    /// A value or a member.
    AfterComma,
}

impl Stand {
    /// Whether a value or a member may begin.
    #[inline(always)]
    fn may_begin(self) -> bool
        ensures { result ≡ lex.may_begin (place_of self) }
    {
        match self {
            Stand::Fresh | Stand::AfterComma => true,
            Stand::AfterValue => false,
        }
    }

    /// Whether a list or an object may end.
    #[inline(always)]
    fn may_close(self) -> bool
        ensures { result ≡ lex.may_close (place_of self) }
    {
        match self {
            Stand::Fresh | Stand::AfterValue => true,
            Stand::AfterComma => false,
        }
    }
}

/// Whether a text has this byte at a place.
#[inline(always)]
fn is_here(text: &[u8], at: usize, byte: u8) -> bool
    ensures within { result ≡ true → at < length text.now }
    ensures byte { result ≡ true → drop at text.now ≡ byte ∷ drop (at + 1) text.now }
{
    at < text.len() && text[at] == byte
}

/// Whether a text has a blank at a place: a space, a tab or the end of a line.
#[inline(always)]
#[tactic(auto, using(crate::proofs::Cursors::space_says_nothing, crate::proofs::Cursors::tab_says_nothing, crate::proofs::Cursors::feed_says_nothing, crate::proofs::Cursors::return_says_nothing))]
fn is_blank_here(text: &[u8], at: usize) -> bool
    ensures within { result ≡ true → at < length text.now }
    ensures blank { result ≡ true
        → lex between (drop at text.now) ≡ lex between (drop (at + 1) text.now) }
{
    if at >= text.len() || text[at] > b' ' {
        return false;
    }
    if is_here(text, at, b' ') {
        return true;
    }
    if is_here(text, at, b'\t') {
        return true;
    }
    if is_here(text, at, b'\n') {
        return true;
    }
    is_here(text, at, b'\r')
}

/// The place of the next byte that is no blank.
#[inline(always)]
#[tactic(auto, using(crate::proofs::Cursors::blank_skipped))]
fn skip_blanks(text: &[u8], at: usize) -> usize
    ensures { lex between (drop result text.now) ≡ lex between (drop at text.now) }
{
    let mut next = at;
    while is_blank_here(text, next) {
        next += 1;
    }
    next
}

/// Where the next token is after the end of a list or an object.
#[inline(always)]
#[tactic(auto, using(crate::proofs::Cursors::comma_passed))]
fn after_end(text: &[u8], at: usize) -> (usize, Stand)
    ensures { tokens_from result.1 result.0 text.now
        ≡ punctuate lex.after_value (lex between (drop at text.now)) }
{
    let next = skip_blanks(text, at);
    if is_here(text, next, b',') {
        return (skip_blanks(text, next + 1), Stand::AfterComma);
    }
    (next, Stand::AfterValue)
}

/// Where the next token is after a value that ends right before a comma or the end of a list or an
/// object.
#[inline(always)]
#[tactic(auto, using(crate::proofs::Cursors::comma_passed, crate::proofs::Cursors::comma_ends, crate::proofs::Cursors::comma_plain, crate::proofs::Cursors::bracket_ends, crate::proofs::Cursors::bracket_plain, crate::proofs::Cursors::brace_ends, crate::proofs::Cursors::brace_plain))]
fn after_value(text: &[u8], at: usize) -> Option<(usize, Stand)>
    ensures next { IfSome result (λ next. tokens_from next.1 next.0 text.now
        ≡ punctuate lex.after_value (lex between (drop at text.now))) }
    ensures ended { IfSome result (λ next. ends_word (drop at text.now) ≡ true) }
    ensures plain { IfSome result (λ next.
        begins_colon (lex between (drop at text.now)) ≡ false) }
{
    if is_here(text, at, b',') {
        return Some((skip_blanks(text, at + 1), Stand::AfterComma));
    }
    if is_here(text, at, b']') {
        return Some((at, Stand::AfterValue));
    }
    if is_here(text, at, b'}') {
        return Some((at, Stand::AfterValue));
    }
    None
}

/// How many bytes without escapes stand before the next quote.
#[inline(always)]
#[tactic(auto, using(crate::proofs::Cursors::plain_more, crate::proofs::Cursors::plain_content, crate::proofs::Cursors::plain_rest))]
fn plain_len(bytes: &[u8]) -> Option<usize>
    ensures content { IfSome result
        (λ count. content plain bytes.now ≡ Some (take count bytes.now)) }
    ensures rest { IfSome result (λ count. lex in_string bytes.now
        ≡ lex between (drop (count + 1) bytes.now)) }
    ensures within { IfSome result (λ count. count < length bytes.now) }
{
    let mut count = 0;
    while count < bytes.len() && bytes[count] != b'"' {
        if bytes[count] == b'\\' || bytes[count] < 32 {
            return None;
        }
        count += 1;
    }
    if count < bytes.len() {
        Some(count)
    } else {
        None
    }
}

/// The number that the digits at the front of a text write, and how many they are: the first 19 at
/// most.
#[inline(always)]
fn digits_at_front(bytes: &[u8]) -> (u64, usize)
    ensures count { result.1 ≤ length bytes.now }
    ensures digits { AllDigits 10 (take result.1 bytes.now) }
    ensures value { result.0 ≡ digits_value 10 (take result.1 bytes.now) }
{
    let stop = if bytes.len() < FEW_DIGITS {
        bytes.len()
    } else {
        FEW_DIGITS
    };
    let mut number: u64 = 0;
    let mut count = 0;
    while count < stop && bytes[count].is_ascii_digit() {
        number = number * 10 + (bytes[count] - b'0') as u64;
        count += 1;
    }
    (number, count)
}

/// The whole number at the front of a text, and how many digits it has.
#[inline(always)]
fn number_at_front(bytes: &[u8]) -> Option<(u64, usize)>
    ensures count { IfSome result (λ found. found.1 ≤ length bytes.now) }
    ensures number { IfSome result (λ found. IsNumber (take found.1 bytes.now)) }
    ensures value { IfSome result
        (λ found. number_of (take found.1 bytes.now) ≡ Some (unsigned found.0)) }
{
    let (number, count) = digits_at_front(bytes);
    if count == 0 {
        return None;
    }
    if count > 1 && bytes[0] == b'0' {
        return None;
    }
    Some((number, count))
}

/// Whether `true` stands at the front of a text, or `false`, and how many bytes it has.
#[inline(always)]
fn bool_at_front(bytes: &[u8]) -> Option<(bool, usize)>
    ensures count { IfSome result (λ found. found.1 ≤ length bytes.now) }
    ensures word { IfSome result (λ found. bytes.now
        ≡ token_text (token.Token.boolean found.0) ++ drop found.1 bytes.now) }
{
    if bytes.starts_with(b"true") {
        return Some((true, 4));
    }
    if bytes.starts_with(b"false") {
        return Some((false, 5));
    }
    None
}

/// A place in a JSON text. A contract sees the tokens from there on.
#[derive(Drop)]
pub(crate) struct Cursor<'a> {
    text: &'a [u8],
    at: usize,
    stand: Stand,
}

impl<'a> Model for Cursor<'a> {
    ghost use Rattle.std.specs.Prelude.{List};
    ghost use Rattle.json.specs.Token.{Token, tokens_code};
    ghost use Rattle.zarr_run_commands.specs.Cursors.{tokens_from};

    ghost Value = { List Token };

    ghost coded = { tokens_code };

    ghost view = { λ c. tokens_from c.stand c.at c.text.now };
}

impl<'a> Cursor<'a> {
    ghost use Rattle.json.specs.Lex.{tokens};

    /// The first token of a text.
    pub(crate) fn new(text: &'a str) -> Cursor<'a>
        ensures { result ≡ tokens text.now }
    {
        let text = text.as_bytes();
        Cursor {
            text,
            at: skip_blanks(text, 0),
            stand: Stand::Fresh,
        }
    }

    /// Takes the bracket that begins a list, if it is next.
    #[inline(always)]
    #[tactic(auto, using(crate::proofs::Cursors::array_begun))]
    pub(crate) fn begin_array(&mut self) -> bool
        ensures { result ≡ true → self.old ≡ token.Token.begin_array ∷ self.new }
    {
        if !self.stand.may_begin() || !is_here(self.text, self.at, b'[') {
            return false;
        }
        self.at = skip_blanks(self.text, self.at + 1);
        self.stand = Stand::Fresh;
        true
    }

    /// Takes the brace that begins an object, if it is next.
    #[tactic(auto, using(crate::proofs::Cursors::object_begun))]
    pub(crate) fn begin_object(&mut self) -> bool
        ensures { result ≡ true → self.old ≡ token.Token.begin_object ∷ self.new }
    {
        if !self.stand.may_begin() || !is_here(self.text, self.at, b'{') {
            return false;
        }
        self.at = skip_blanks(self.text, self.at + 1);
        self.stand = Stand::Fresh;
        true
    }

    /// Takes the bracket that ends a list, if it is next.
    #[inline(always)]
    #[tactic(auto, using(crate::proofs::Cursors::array_ended))]
    pub(crate) fn take_end_array(&mut self) -> bool
        ensures taken { result ≡ true → self.old ≡ token.Token.end_array ∷ self.new }
        ensures kept { result ≡ false → self.new ≡ self.old }
    {
        if !self.stand.may_close() || !is_here(self.text, self.at, b']') {
            return false;
        }
        let (at, stand) = after_end(self.text, self.at + 1);
        self.at = at;
        self.stand = stand;
        true
    }

    /// Takes the brace that ends an object, if it is next.
    #[tactic(auto, using(crate::proofs::Cursors::object_ended))]
    fn take_end_object(&mut self) -> bool
        ensures taken { result ≡ true → self.old ≡ token.Token.end_object ∷ self.new }
        ensures kept { result ≡ false → self.new ≡ self.old }
    {
        if !self.stand.may_close() || !is_here(self.text, self.at, b'}') {
            return false;
        }
        let (at, stand) = after_end(self.text, self.at + 1);
        self.at = at;
        self.stand = stand;
        true
    }

    /// The next token, where it is a whole number.
    #[inline(always)]
    pub(crate) fn next_number(&mut self) -> Option<u64>
        ensures { IfSome result (λ n. (s : List ℕ) × (self.old ≡ token.Token.number s ∷ self.new)
            × (number_of s ≡ Some (unsigned n))) }
    {
        let (text, from) = (self.text, self.at);
        if !self.stand.may_begin() || from >= text.len() {
            return None;
        }
        let (_, rest) = text.split_at(from);
        let (number, count) = number_at_front(rest)?;
        let (at, stand) = after_value(text, from + count)?;
        self.at = at;
        self.stand = stand;
        Some(number)
    }

    /// The next token, where it is `true` or `false`.
    pub(crate) fn next_bool(&mut self) -> Option<bool>
        ensures { IfSome result (λ b. self.old ≡ token.Token.boolean b ∷ self.new) }
    {
        let (text, from) = (self.text, self.at);
        if !self.stand.may_begin() || from >= text.len() {
            return None;
        }
        let (_, rest) = text.split_at(from);
        let (value, count) = bool_at_front(rest)?;
        let (at, stand) = after_value(text, from + count)?;
        self.at = at;
        self.stand = stand;
        Some(value)
    }

    /// The next token, where it is a text without escapes.
    pub(crate) fn next_text(&mut self) -> Option<&'a str>
        ensures { IfSome result (λ text. self.old ≡ token.Token.string text.now ∷ self.new) }
    {
        let (text, from) = (self.text, self.at);
        if !self.stand.may_begin() || !is_here(text, from, b'"') {
            return None;
        }
        let (_, rest) = text.split_at(from + 1);
        let count = plain_len(rest)?;
        let (front, _) = rest.split_at(count);
        let Ok(found) = std::str::from_utf8(front) else {
            return None;
        };
        let end = from + 1 + count + 1;
        let (at, stand) = after_value(text, end)?;
        self.at = at;
        self.stand = stand;
        Some(found)
    }

    /// The next key, or `Some(None)` at the brace that ends the object.
    pub(crate) fn next_key(&mut self) -> Option<Option<&'a str>>
        ensures { IfSome result (λ key. read_key self.old
            ≡ Some (option_map (λ s. s.now) key, self.new)) }
    {
        if self.take_end_object() {
            return Some(None);
        }
        let (text, from) = (self.text, self.at);
        if !self.stand.may_begin() || !is_here(text, from, b'"') {
            return None;
        }
        let (_, rest) = text.split_at(from + 1);
        let count = plain_len(rest)?;
        let (front, _) = rest.split_at(count);
        let Ok(found) = std::str::from_utf8(front) else {
            return None;
        };
        let end = from + 1 + count + 1;
        if !is_here(text, end, b':') {
            return None;
        }
        self.at = skip_blanks(text, end + 1);
        self.stand = Stand::Fresh;
        Some(Some(found))
    }

    /// Whether no token is left.
    pub(crate) fn is_at_end(&self) -> bool
        ensures { result ≡ true → self.now ≡ [] }
    {
        self.stand.may_close() && self.at >= self.text.len()
    }
}
