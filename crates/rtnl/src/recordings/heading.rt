//! The line of a recording that names the dump which it answers.

ghost use Rattle.std.specs.Prelude.{◌≡◌, ◌≤◌, ◌<◌, ◌^◌, ◌↔◌, not, ℕ, option_copied, option_map};
ghost use Rattle.std.specs.Prelude.{All, IfSome, IsTrue, List, length};
ghost use Rattle.std.specs.Char.{is_ascii_digit};
ghost use Rattle.std.specs.List.{position};
ghost use Rattle.std.specs.Option.{SomeIff};
ghost use Rattle.std.specs.Str.Parse.{IsNumeral, digits_value};
ghost use Rattle.rtnl.specs.Heading.{Names, all_blank, behind, heading, is_named};
ghost use Rattle.rtnl.specs.Heading.{kind_at_end, kind_named, leading_digits, number_at};

use crate::recordings::lines::is_blank;
use nl_route::Family;
use std::str;

/// A sequence number and a port id.
#[derive(Clone, Copy, Debug, PartialEq, Eq)]
pub struct Numbers {
    pub seq: u32,
    pub port: u32,
}

/// Whether a word is digits alone, so that no sign is one.
pub fn is_digits(word: &str) -> bool
    ensures { IsTrue result ↔ ((0 < length word.now)
        × All (λ byte. (48 ≤ byte) × (byte ≤ 57)) word.now) }
{
    !word.is_empty() && word.bytes().all(|byte| byte.is_ascii_digit())
}

/// The number of these digits, where it is below 2^32.
fn number_of(word: &str) -> Option<u32>
    ensures { SomeIff result (IsNumeral 10 word.now × (digits_value 10 word.now < 2 ^ 32))
        (digits_value 10 word.now) }
{
    if is_digits(word) {
        word.parse().ok()
    } else {
        None
    }
}

/// What a recording says of the dump that it answers.
#[derive(Clone, Copy, Debug, PartialEq, Eq)]
pub struct Heading {
    pub numbers: Numbers,
    /// The kind of its entries, where it is said.
    pub kind: Option<Family>,
}

/// What is behind these words, where bytes begin with them.
pub(crate) fn behind<'a>(words: &[u8], bytes: &'a [u8]) -> Option<&'a [u8]>
    ensures { option_copied result ≡ behind words.now bytes.now }
{
    bytes.strip_prefix(words)
}

/// The place of the first byte that is no digit.
fn other_place(bytes: &[u8]) -> Option<usize>
    ensures { result ≡ position (λ byte. not (is_ascii_digit byte)) bytes.now }
{
    bytes.iter().position(|byte| !byte.is_ascii_digit())
}

/// How many digits stand at the front.
fn leading_digits(bytes: &[u8]) -> usize
    ensures count { result ≡ leading_digits bytes.now }
    ensures within { result ≤ length bytes.now }
{
    match other_place(bytes) {
        Some(place) => place,
        None => bytes.len(),
    }
}

/// The number at the front, below 2^32, and what is behind it.
#[tactic(auto, using(crate::proofs::Headings::number_is, crate::proofs::Headings::no_number))]
fn number_at(bytes: &[u8]) -> Option<(u32, &[u8])>
    ensures { option_map (λ p. (p.0, p.1.now)) result ≡ number_at bytes.now }
{
    let (digits, rest) = bytes.split_at(leading_digits(bytes));
    let number = number_of(str::from_utf8(digits).ok()?)?;
    Some((number, rest))
}

fn all_blank(bytes: &[u8]) -> bool
    ensures { result ≡ all_blank bytes.now }
{
    bytes.iter().all(|byte| is_blank(*byte))
}

/// Whether the name of this kind stands here, and blanks behind it.
fn is_named(words: &[u8], kind: Family) -> bool
    ensures { result ≡ is_named words.now kind }
{
    match behind(kind.row().name.as_bytes(), words) {
        Some(rest) => all_blank(rest),
        None => false,
    }
}

/// The kind that is named.
fn kind_named(words: &[u8]) -> Option<Family>
    ensures { result ≡ kind_named words.now }
{
    if is_named(words, Family::Link) {
        return Some(Family::Link);
    }
    if is_named(words, Family::Addr) {
        return Some(Family::Addr);
    }
    if is_named(words, Family::Route) {
        return Some(Family::Route);
    }
    if is_named(words, Family::Neigh) {
        return Some(Family::Neigh);
    }
    if is_named(words, Family::Rule) {
        return Some(Family::Rule);
    }
    None
}

/// The kind that a line's end says, or that it says none. It may end in nothing else.
fn kind_at_end(rest: &[u8]) -> Option<Option<Family>>
    ensures { result ≡ kind_at_end rest.now }
{
    if all_blank(rest) {
        return Some(None);
    }
    let kind = kind_named(behind(b" kind ", rest)?)?;
    Some(Some(kind))
}

/// What a line `# seq N port N` says, behind which ` kind KIND` may stand, and blanks at its end:
/// its numbers are digits alone and below 2^32. A line of another form says nothing.
#[tactic(auto, unfolding(crate::specs::Heading::heading))]
pub fn heading_of(line: &[u8]) -> Option<Heading>
    ensures says { result ≡ heading line.now }
    ensures names { IfSome result (λ heading. (blanks : List ℕ)
        × Names line.now heading.numbers.seq heading.numbers.port heading.kind blanks) }
{
    let numbers = behind(b"# seq ", line)?;
    let (seq, middle) = number_at(numbers)?;
    let second = behind(b" port ", middle)?;
    let (port, end) = number_at(second)?;
    let kind = kind_at_end(end)?;
    Some(Heading {
        numbers: Numbers { seq, port },
        kind,
    })
}

/// What the first such line of a recording says.
pub fn heading_in(input: &[u8]) -> Option<Heading> {
    input.split(|byte| *byte == b'\n').find_map(heading_of)
}
