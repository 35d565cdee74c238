//! Lines of JSON.

ghost use Rattle.std.specs.Prelude.{◌≡◌, ◌≤◌, ℕ, ◌+◌, List, [], ◌∷◌, ◌++◌, codes, decimal, length, OnOk, IfOk};
ghost use Rattle.json.specs.Json.{null};
ghost use Rattle.json.specs.Print.{quoted};
ghost use Rattle.json.specs.Run.{is_plain};
ghost use Rattle.json.specs.Token.{begin_array, begin_object, end_array, end_object, key};
ghost use Rattle.json.specs.Tree.{json_tokens};
ghost use Rattle.rtnl.specs.Json.{Field, IsUnescaped, ◌⊕◌, array, boolean, closed, digits, fields_tokens};
ghost use Rattle.rtnl.specs.Json.{is_unescaped, json_line, number, object, object_behind, opened};
ghost use Rattle.rtnl.specs.Json.{signed, string};

use crate::pieces::segment::Segment;
use crate::pieces::{push, push_digits};
use json::Writer;
use std::alloc::{AllocError, Global};
use std::marker::Model;
use std::mem;

/// Whether a byte stands for itself in a string of JSON.
#[inline(always)]
fn is_plain(byte: u8) -> bool
    ensures { result ≡ is_plain byte }
{
    !(byte == b'"' || byte == b'\\' || byte < b' ')
}

/// Whether each byte of a text does.
#[inline(always)]
pub(crate) fn is_unescaped(text: &[u8]) -> bool
    ensures { result ≡ is_unescaped text.now }
{
    for byte in text {
        if !is_plain(*byte) {
            return false;
        }
    }
    true
}

/// Appends a text as a string of JSON, in which some bytes are escaped.
#[inline(never)]
#[tactic(auto, unfolding(json::specs::Print::print_from), using(crate::proofs::Sets::whole_value))]
fn push_escaped(out: &mut Vec<u8>, text: &str) -> Result<(), AllocError>
    ensures { OnOk result (out.new.items ≡ out.old.items ++ quoted text.now) }
{
    let alloc = *out.allocator();
    let mut writer = Writer::new(mem::replace(out, Vec::new(alloc)));
    writer.string(text)?;
    *out = writer.into_inner();
    Ok(())
}

/// Appends a text that stands for itself as a string of JSON.
#[inline(always)]
#[tactic(auto, using(crate::proofs::Json::quoted_behind))]
fn push_plain(out: &mut Vec<u8>, text: &str) -> Result<(), AllocError>
    requires { IsUnescaped text.now }
    ensures { OnOk result (out.new.items ≡ out.old.items ++ quoted text.now) }
{
    push(out, "\"")?;
    push(out, text)?;
    push(out, "\"")
}

/// Appends a text as a string of JSON.
fn push_string(out: &mut Vec<u8>, text: &str) -> Result<(), AllocError>
    ensures { OnOk result (out.new.items ≡ out.old.items ++ quoted text.now) }
{
    if is_unescaped(text.as_bytes()) {
        push_plain(out, text)
    } else {
        push_escaped(out, text)
    }
}

/// A value of JSON that is being written on a line of its own, behind other lines.
#[derive(Drop)]
pub(crate) struct Line {
    text: Vec<u8>,

    /// A value has just ended in it.
    after: bool,
}

impl Model for Line {
    ghost use Rattle.rtnl.specs.Json.{Line as Written};

    ghost Value = { Written };

    ghost view = { λ l. record { text = l.text.items; after = l.after } };
}

impl Line {
    /// A line behind these, on which an object is begun. The lines are then its.
    #[tactic(auto, unfolding(crate::specs::Json::object_behind))]
    pub(crate) fn begin(alloc: Global, lines: &mut Vec<u8>) -> Result<Line, AllocError>
        ensures { IfOk result (λ line. line ≡ object_behind lines.old.items) }
    {
        let mut line = Line {
            text: mem::replace(lines, Vec::new(alloc)),
            after: false,
        };
        line.begin_object()?;
        Ok(line)
    }

    /// Ends the object and its line, and gives all lines back.
    pub(crate) fn end(self, lines: &mut Vec<u8>) -> Result<(), AllocError>
        ensures { OnOk result ((before : List ℕ) (fields : List Field)
            → self ≡ object_behind before ⊕ fields_tokens fields
            → lines.new.items ≡ before ++ json_line (object fields)) }
    {
        let mut all = self.text;
        push(&mut all, "}\n")?;
        *lines = all;
        Ok(())
    }

    /// Writes the words of tokens, of which the first begins. `after` says whether the last ends a
    /// value.
    #[inline(always)]
    pub(crate) fn open(&mut self, words: &str, after: bool) -> Result<(), AllocError>
        ensures { OnOk result (self.new ≡ opened self.old words.now after) }
    {
        if self.after {
            push(&mut self.text, ",")?;
        }
        self.after = after;
        push(&mut self.text, words)
    }

    /// Writes a piece that was put together, in the same way.
    #[inline(always)]
    pub(crate) fn piece(&mut self, piece: &mut Segment, after: bool) -> Result<(), AllocError>
        requires { 1 + length piece.old ≤ 248 }
        ensures { OnOk result (self.new ≡ opened self.old piece.old after) }
    {
        if self.after {
            piece.put(",");
        }
        self.after = after;
        piece.push_to(&mut self.text)
    }

    /// Writes the words that end a value.
    #[inline(always)]
    fn close(&mut self, words: &str) -> Result<(), AllocError>
        ensures { OnOk result (self.new ≡ closed self.old words.now) }
    {
        self.after = true;
        push(&mut self.text, words)
    }

    #[inline(always)]
    #[tactic(auto, using(crate::proofs::Json::begun_object))]
    pub(crate) fn begin_object(&mut self) -> Result<(), AllocError>
        ensures { OnOk result (self.new ≡ self.old ⊕ (begin_object ∷ [])) }
    {
        self.open("{", false)
    }

    #[inline(always)]
    #[tactic(auto, using(crate::proofs::Json::ended_object))]
    pub(crate) fn end_object(&mut self) -> Result<(), AllocError>
        ensures { OnOk result (self.new ≡ self.old ⊕ (end_object ∷ [])) }
    {
        self.close("}")
    }

    #[inline(always)]
    #[tactic(auto, using(crate::proofs::Json::begun_array))]
    pub(crate) fn begin_array(&mut self) -> Result<(), AllocError>
        ensures { OnOk result (self.new ≡ self.old ⊕ (begin_array ∷ [])) }
    {
        self.open("[", false)
    }

    #[inline(always)]
    #[tactic(auto, using(crate::proofs::Json::ended_array))]
    pub(crate) fn end_array(&mut self) -> Result<(), AllocError>
        ensures { OnOk result (self.new ≡ self.old ⊕ (end_array ∷ [])) }
    {
        self.close("]")
    }

    /// The name of a field, whose value comes next.
    #[inline(always)]
    #[tactic(auto, using(crate::proofs::Json::key_written))]
    pub(crate) fn key(&mut self, name: &str) -> Result<(), AllocError>
        requires { IsUnescaped name.now }
        ensures { OnOk result (self.new ≡ self.old ⊕ (key name.now ∷ [])) }
    {
        self.open("\"", false)?;
        push(&mut self.text, name)?;
        push(&mut self.text, "\":")
    }

    /// The name of the field that says what bytes mean.
    #[inline(always)]
    #[tactic(auto, using(crate::proofs::Json::data_named))]
    pub(crate) fn data_key(&mut self) -> Result<(), AllocError>
        ensures { OnOk result (self.new ≡ self.old ⊕ (key (codes "data") ∷ [])) }
    {
        self.open("\"data\":", false)
    }

    /// The name of a field, of which some bytes may need an escape.
    #[tactic(auto, using(crate::proofs::Json::name_written))]
    pub(crate) fn name(&mut self, name: &str) -> Result<(), AllocError>
        ensures { OnOk result (self.new ≡ self.old ⊕ (key name.now ∷ [])) }
    {
        self.open("", false)?;
        push_string(&mut self.text, name)?;
        push(&mut self.text, ":")
    }

    /// The number of a place as the name of a field.
    #[tactic(auto, using(crate::proofs::Json::key_written))]
    pub(crate) fn place(&mut self, place: u64) -> Result<(), AllocError>
        ensures { OnOk result (self.new ≡ self.old ⊕ (key (decimal place) ∷ [])) }
    {
        let mut piece = Segment::new();
        piece.put_field("\"", place);
        self.piece(&mut piece, false)?;
        push(&mut self.text, "\":")
    }

    /// A string.
    #[tactic(auto, using(crate::proofs::Json::quoted_written))]
    pub(crate) fn string(&mut self, text: &str) -> Result<(), AllocError>
        ensures { OnOk result (self.new ≡ self.old ⊕ json_tokens (string text.now)) }
    {
        self.open("", true)?;
        push_string(&mut self.text, text)
    }

    /// No value.
    #[tactic(auto, using(crate::proofs::Json::null_written))]
    pub(crate) fn null(&mut self) -> Result<(), AllocError>
        ensures { OnOk result (self.new ≡ self.old ⊕ json_tokens null) }
    {
        self.open("null", true)
    }

    /// A field with a number, put together.
    #[inline(always)]
    #[tactic(auto, using(crate::proofs::Json::number_field))]
    pub(crate) fn number(&mut self, name: &str, n: u64) -> Result<(), AllocError>
        requires plain { IsUnescaped name.now }
        requires short { length name.now ≤ 64 }
        ensures { OnOk result (self.new ≡ self.old ⊕ fields_tokens ((name.now, number n) ∷ [])) }
    {
        let mut piece = Segment::new();
        piece.put_field("\":", n);
        piece.put(name);
        piece.put("\"");
        self.piece(&mut piece, true)
    }

    /// A field with a signed number, put together.
    #[inline(always)]
    #[tactic(auto, using(crate::proofs::Json::signed_written))]
    pub(crate) fn signed(&mut self, name: &str, z: i32) -> Result<(), AllocError>
        requires plain { IsUnescaped name.now }
        requires short { length name.now ≤ 64 }
        ensures { OnOk result (self.new ≡ self.old ⊕ fields_tokens ((name.now, signed z) ∷ [])) }
    {
        let mut piece = Segment::new();
        piece.put_signed(z.into());
        piece.put("\":");
        piece.put(name);
        piece.put("\"");
        self.piece(&mut piece, true)
    }

    /// A field with an array of nothing, put together.
    #[inline(always)]
    #[tactic(auto, using(crate::proofs::Json::empty_array_written))]
    pub(crate) fn empty_array(&mut self, name: &str) -> Result<(), AllocError>
        requires plain { IsUnescaped name.now }
        requires short { length name.now ≤ 64 }
        ensures { OnOk result (self.new ≡ self.old ⊕ fields_tokens ((name.now, array []) ∷ [])) }
    {
        let mut piece = Segment::new();
        piece.put("\":[]");
        piece.put(name);
        piece.put("\"");
        self.piece(&mut piece, true)
    }

    /// True or false.
    #[tactic(auto, using(crate::proofs::Json::truth_written, crate::proofs::Json::falsehood_written))]
    pub(crate) fn truth(&mut self, b: bool) -> Result<(), AllocError>
        ensures { OnOk result (self.new ≡ self.old ⊕ json_tokens (boolean b)) }
    {
        if b {
            self.open("true", true)
        } else {
            self.open("false", true)
        }
    }

    /// A field with a truth value.
    #[tactic(auto, using(crate::proofs::Sets::one))]
    pub(crate) fn boolean(&mut self, name: &str, b: bool) -> Result<(), AllocError>
        requires { IsUnescaped name.now }
        ensures { OnOk result (self.new ≡ self.old ⊕ fields_tokens ((name.now, boolean b) ∷ [])) }
    {
        self.key(name)?;
        self.truth(b)
    }

    /// A field with a string.
    #[inline(always)]
    #[tactic(auto, using(crate::proofs::Sets::one))]
    pub(crate) fn text(&mut self, name: &str, text: &str) -> Result<(), AllocError>
        requires { IsUnescaped name.now }
        ensures { OnOk result
            (self.new ≡ self.old ⊕ fields_tokens ((name.now, string text.now) ∷ [])) }
    {
        self.key(name)?;
        self.string(text)
    }

    /// A field with bytes, in hexadecimal digits.
    #[tactic(auto, using(crate::proofs::Sets::one))]
    pub(crate) fn digits(&mut self, name: &str, bytes: &[u8]) -> Result<(), AllocError>
        requires { IsUnescaped name.now }
        ensures { OnOk result
            (self.new ≡ self.old ⊕ fields_tokens ((name.now, digits bytes.now) ∷ [])) }
    {
        self.key(name)?;
        self.hex(bytes)
    }

    /// A string that stands for itself.
    #[inline(always)]
    #[tactic(auto, using(crate::proofs::Json::plain_written))]
    pub(crate) fn unescaped(&mut self, text: &str) -> Result<(), AllocError>
        requires { IsUnescaped text.now }
        ensures { OnOk result (self.new ≡ self.old ⊕ json_tokens (string text.now)) }
    {
        self.open("\"", true)?;
        push(&mut self.text, text)?;
        push(&mut self.text, "\"")
    }

    /// A string of two parts, which stands for itself.
    #[inline(always)]
    #[tactic(auto, using(crate::proofs::Json::plain_written, crate::proofs::Sets::joins))]
    pub(crate) fn joined(&mut self, first: &str, second: &str) -> Result<(), AllocError>
        requires { IsUnescaped (first.now ++ second.now) }
        ensures { OnOk result
            (self.new ≡ self.old ⊕ json_tokens (string (first.now ++ second.now))) }
    {
        self.open("\"", true)?;
        push(&mut self.text, first)?;
        push(&mut self.text, second)?;
        push(&mut self.text, "\"")
    }

    /// Bytes, in hexadecimal digits.
    #[tactic(auto, using(crate::proofs::Json::plain_written, crate::proofs::Unescaped::digits_unescaped))]
    pub(crate) fn hex(&mut self, bytes: &[u8]) -> Result<(), AllocError>
        ensures { OnOk result (self.new ≡ self.old ⊕ json_tokens (digits bytes.now)) }
    {
        self.open("\"", true)?;
        push_digits(&mut self.text, bytes)?;
        push(&mut self.text, "\"")
    }
}
