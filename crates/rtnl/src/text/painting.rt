//! The printed text in colours, for a terminal.

ghost use Rattle.std.specs.Prelude.{◌≡◌, ◌≤◌, ◌++◌, OnOk, length};
ghost use Rattle.std.specs.List.{after_first, position_or_len, prefix_len};
ghost use Rattle.rtnl.specs.Painted.{first_in, is_space, painted, painted_line, painted_words};
ghost use Rattle.rtnl.specs.Painted.{third_in};

use crate::pieces::colours::{BOLD, CYAN, RED, push_coloured};
use crate::pieces::push;
use memchr::memchr;
use std::alloc::AllocError;

/// How long the first word is.
#[tactic(auto, using(crate::proofs::Painting::word_found, crate::proofs::Painting::word_alone))]
fn word_length(words: &[u8]) -> usize
    ensures value { result ≡ position_or_len is_space words.now }
    ensures within { result ≤ length words.now }
{
    match memchr(b' ', words) {
        Some(end) => end,
        None => words.len(),
    }
}

/// What stands behind the first word and its blank.
fn behind_word(words: &[u8]) -> &[u8]
    ensures value { result.now ≡ after_first is_space words.now }
    ensures within { length result.now ≤ length words.now }
{
    let (_, rest) = words.split_at(word_length(words));
    match rest {
        [] => rest,
        [_, behind @ ..] => behind,
    }
}

/// How many blanks a line begins with.
fn indentation(line: &[u8]) -> usize
    ensures value { result ≡ prefix_len is_space line.now }
    ensures within { result ≤ length line.now }
{
    let mut length = 0;
    while length < line.len() && line[length] == b' ' {
        length += 1;
    }
    length
}

/// Writes words, the first of them in a colour.
#[tactic(auto, unfolding(crate::specs::Painted::first_in))]
fn push_first(out: &mut Vec<u8>, colour: &str, words: &[u8]) -> Result<(), AllocError>
    ensures { OnOk result (out.new.items ≡ out.old.items ++ first_in colour.now words.now) }
{
    let (word, rest) = words.split_at(word_length(words));
    push_coloured(out, colour, word)?;
    out.extend_from_slice(rest)
}

/// Writes words, the third of them in a colour.
#[tactic(auto, unfolding(crate::specs::Painted::third_in))]
fn push_third(out: &mut Vec<u8>, colour: &str, words: &[u8]) -> Result<(), AllocError>
    ensures { OnOk result (out.new.items ≡ out.old.items ++ third_in colour.now words.now) }
{
    let third = behind_word(behind_word(words));
    out.extend_from_slice(&words[..words.len() - third.len()])?;
    push_first(out, colour, third)
}

/// Writes the words of a line: the type of a message and the name of an attribute in colours.
#[tactic(auto, unfolding(crate::specs::Painted::painted_words))]
fn push_words(out: &mut Vec<u8>, words: &[u8]) -> Result<(), AllocError>
    ensures { OnOk result (out.new.items ≡ out.old.items ++ painted_words words.now) }
{
    if words.starts_with(b"message ") {
        push_third(out, BOLD, words)
    } else if words.starts_with(b"attr ") {
        push_third(out, CYAN, words)
    } else {
        out.extend_from_slice(words)
    }
}

/// Writes a line in its colours.
#[tactic(auto, unfolding(crate::specs::Painted::painted_line))]
fn push_line(out: &mut Vec<u8>, line: &[u8]) -> Result<(), AllocError>
    ensures { OnOk result (out.new.items ≡ out.old.items ++ painted_line line.now) }
{
    if line.starts_with(b"refused ") {
        return push_coloured(out, RED, line);
    }
    let (indent, words) = line.split_at(indentation(line));
    out.extend_from_slice(indent)?;
    push_words(out, words)
}

/// Appends a text in its colours.
pub(crate) fn push_in_colours(out: &mut Vec<u8>, text: &[u8]) -> Result<(), AllocError>
    ensures { OnOk result (out.new.items ≡ out.old.items ++ painted text.now) }
{
    let mut left = text;
    while let Some(end) = memchr(b'\n', left) {
        let (line, rest) = left.split_at(end);
        push_line(out, line)?;
        push(out, "\n")?;
        let (_newline, behind) = rest.split_at(1);
        left = behind;
    }
    push_line(out, left)
}
