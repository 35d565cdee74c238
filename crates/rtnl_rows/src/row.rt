//! What is asked of the program, and what it answers.

ghost use Rattle.std.specs.Prelude.{◌≤◌, ◌+◌, length};

use itoa::Buffer;
use nl_attr::{AttrFlags, Ctx, Depth, FARTHEST_END, LONGEST_REGION, Order};
use nl_frame::Limits;
use nl_route::{Family, Head, Object};
use std::alloc::Global;
use std::fmt::{self, Display, Write};
use std::num::TryFromIntError;

/// The contexts by their numbers.
const CONTEXTS: [Ctx; 8] = [
    Ctx::Link,
    Ctx::LinkInfo,
    Ctx::Addr,
    Ctx::Route,
    Ctx::Metrics,
    Ctx::Neigh,
    Ctx::Rule,
    Ctx::Plain,
];

/// The number of each refusal for which memory ran out.
const MEMORY: u8 = 13;

/// What is asked in a row and in those behind it, and what was answered. A number is asked in
/// decimals with a byte behind it; bytes are asked as how many they are and then themselves. Where
/// something is asked that no call takes, the row is answered as wrong.
#[derive(Drop)]
pub(crate) struct Row<'a> {
    pub(crate) alloc: Global,
    asked: &'a [u8],
    pub(crate) behind: &'a [u8],
    pub(crate) answers: Vec<u8>,
    is_wrong: bool,
    lacked_memory: bool,
    pub(crate) is_out_of_memory: bool,
}

/// Answers these fields of a value, each of which is a truth or a number that isn't below 0.
macro_rules! put_fields {
    ($row:expr, $value:expr, $($field:ident)+) => { $row.put_all(&[$($value.$field as u64),+]) };
}

pub(crate) use put_fields;

/// The same of what these calls answer.
macro_rules! put_calls {
    ($row:expr, $value:expr, $($call:ident)+) => { $row.put_all(&[$($value.$call() as u64),+]) };
}

pub(crate) use put_calls;

/// Makes a call for the head of the family that is asked.
macro_rules! by_family {
    ($row:ident, $call:ident) => {
        match $row.family() {
            Family::Link => $call::<LinkHead>($row),
            Family::Addr => $call::<AddrHead>($row),
            Family::Route => $call::<RouteHead>($row),
            Family::Neigh => $call::<NeighHead>($row),
            Family::Rule => $call::<RuleHead>($row),
        }
    };
}

pub(crate) use by_family;

/// The number that stands for one that may be below 0.
pub(crate) fn unsigned(number: i32) -> u64 {
    i64::from(number).cast_unsigned()
}

impl<'a> Row<'a> {
    pub(crate) fn new(alloc: Global, asked: &'a [u8], answers: Vec<u8>) -> Row<'a> {
        Row {
            alloc,
            asked: &[],
            behind: asked,
            answers,
            is_wrong: false,
            lacked_memory: false,
            is_out_of_memory: false,
        }
    }

    /// Memory ran out where a row was prepared or answered: what is answered ends there.
    pub(crate) fn run_out(&mut self) {
        self.is_out_of_memory = true;
    }

    /// What is asked can't be called.
    pub(crate) fn fail(&mut self) {
        self.is_wrong = true;
    }

    /// Goes on to the next row.
    pub(crate) fn begin(&mut self) {
        self.is_wrong = false;
        self.asked = self.behind;
        let asked = self.text();
        self.behind = self.asked;
        self.asked = asked;
    }

    /// Passes over the rest of the row.
    pub(crate) fn skip(&mut self) {
        self.asked = &[];
    }

    /// Ends what is answered to a row, all of which was to be read.
    pub(crate) fn end(&mut self) {
        let is_wrong = self.is_wrong || !self.asked.is_empty();
        self.push(if is_wrong { b"?\n" } else { b".\n" });
    }

    /// Whether a step is asked, which may be asked for where memory was lacking before.
    pub(crate) fn is_asked(&mut self) -> bool {
        let lacked_memory = self.lacked_memory;
        self.lacked_memory = false;
        self.number() == 0 || lacked_memory
    }

    // ---- what is asked

    pub(crate) fn number(&mut self) -> u64 {
        let mut number: u64 = 0;
        let mut end: usize = 0;
        for byte in self.asked {
            end = end.saturating_add(1);
            if !byte.is_ascii_digit() {
                break;
            }
            number = number.wrapping_mul(10).wrapping_add(*byte as u64 & 15);
        }
        self.asked = self.asked.get(end..).unwrap_or(&[]);
        number
    }

    /// A number of a narrower type.
    pub(crate) fn int<T: TryFrom<u64, Error = TryFromIntError> + Default>(&mut self) -> T {
        match T::try_from(self.number()) {
            Ok(number) => number,
            Err(_) => {
                self.fail();
                T::default()
            }
        }
    }

    pub(crate) fn text(&mut self) -> &'a [u8] {
        let len = self.int::<usize>();
        if len > self.asked.len() {
            self.fail();
            return &[];
        }
        let (text, rest) = self.asked.split_at(len);
        self.asked = rest;
        text
    }

    /// Bytes that are no more than a region has.
    pub(crate) fn bytes(&mut self) -> &'a [u8]
        ensures { length result.now ≤ LONGEST_REGION }
    {
        let bytes = self.text();
        if bytes.len() > LONGEST_REGION {
            self.fail();
            return &[];
        }
        bytes
    }

    /// Just so many bytes.
    pub(crate) fn array<const N: usize>(&mut self) -> [u8; N] {
        let bytes = self.text();
        let mut array = [0; N];
        if bytes.len() == N {
            array.copy_from_slice(bytes);
        } else {
            self.fail();
        }
        array
    }

    /// The byte order for a call that has one, or none for its twin that has none.
    pub(crate) fn twin(&mut self) -> Option<Order> {
        match self.number() {
            0 => None,
            1 => Some(Order::Little),
            _ => Some(Order::Big),
        }
    }

    pub(crate) fn order(&mut self) -> Order {
        self.twin().unwrap_or(Order::Little)
    }

    pub(crate) fn context(&mut self) -> Ctx {
        match CONTEXTS.get(self.int::<usize>()) {
            Some(ctx) => *ctx,
            None => Ctx::Plain,
        }
    }

    pub(crate) fn family(&mut self) -> Family {
        match Family::ALL.get(self.int::<usize>()) {
            Some(family) => *family,
            None => Family::Link,
        }
    }

    pub(crate) fn flags(&mut self) -> AttrFlags {
        AttrFlags {
            nested: self.number() != 0,
            net: self.number() != 0,
        }
    }

    pub(crate) fn depth(&mut self) -> Depth {
        match Depth::new(self.int::<u8>()) {
            Ok(depth) => depth,
            Err(_) => Depth::standard(),
        }
    }

    /// The offset of a region, which then ends where one may.
    pub(crate) fn base(&mut self) -> u32
        ensures { result + LONGEST_REGION ≤ FARTHEST_END }
    {
        let base = self.number();
        if base > (FARTHEST_END - LONGEST_REGION as u32) as u64 {
            self.fail();
            return 0;
        }
        base as u32
    }

    pub(crate) fn limits(&mut self) -> Limits {
        let order = self.order();
        let (depth, datagram) = (self.int::<u8>(), self.int::<u32>());
        let (total, entries) = (self.number(), self.int::<u32>());
        match Limits::new(depth, datagram, total, entries) {
            Ok(limits) => limits.with_order(order),
            Err(_) => {
                self.fail();
                Limits::standard()
            }
        }
    }

    // ---- what is answered

    fn push(&mut self, bytes: &[u8]) {
        if !self.is_out_of_memory && self.answers.extend_from_slice(bytes).is_err() {
            self.run_out();
        }
    }

    fn push_number(&mut self, number: u64, end: u8) {
        let mut buffer = Buffer::new();
        self.push(buffer.format(number).as_bytes());
        self.push(&[end]);
    }

    pub(crate) fn put(&mut self, number: u64) {
        self.push_number(number, b' ');
    }

    /// Answers each of these numbers.
    pub(crate) fn put_all(&mut self, numbers: &[u64]) {
        for number in numbers {
            self.put(*number);
        }
    }

    pub(crate) fn put_bytes(&mut self, bytes: &[u8]) {
        self.push_number(bytes.len() as u64, b':');
        self.push(bytes);
        self.push(b" ");
    }

    pub(crate) fn put_none(&mut self) {
        self.push(b"- ");
    }

    /// Answers a number, or that there is none.
    pub(crate) fn put_maybe(&mut self, number: Option<u64>) {
        match number {
            Some(number) => self.put(number),
            None => self.put_none(),
        }
    }

    /// Answers bytes, or that there are none.
    pub(crate) fn put_found(&mut self, found: Option<&[u8]>) {
        match found {
            Some(bytes) => self.put_bytes(bytes),
            None => self.put_none(),
        }
    }

    /// Answers what a value is shown as.
    pub(crate) fn show<T: Display + Drop>(&mut self, value: T) {
        if write!(self, "\"{value}\" ").is_err() {
            self.run_out();
        }
    }

    /// Answers a refusal by its number, which is not 0, and its text.
    pub(crate) fn refuse<E: Display + Drop>(&mut self, code: u8, error: E) {
        self.lacked_memory = code == MEMORY;
        self.put(code as u64);
        self.show(error);
    }

    /// Answers the bytes of an entry, which is no deeper than any that is read.
    pub(crate) fn put_object<H: Head>(&mut self, object: &Object<H>, order: Order) {
        if self.is_out_of_memory {
            return;
        }
        let len = object.body_len().unwrap_or(0);
        self.push_number(len as u64, b':');
        let depth = Depth::new(32).unwrap_or(Depth::standard());
        match object.write_body_ordered(depth, &mut self.answers, order) {
            Ok(()) => self.push(b" "),
            Err(error) => self.stop(error.code()),
        }
    }

    /// What comes before the call is refused by this number.
    pub(crate) fn stop(&mut self, code: u8) {
        self.fail();
        if code == MEMORY {
            self.run_out();
        }
    }
}

impl Write for Row<'_> {
    fn write_str(&mut self, text: &str) -> fmt::Result {
        self.push(text.as_bytes());
        Ok(())
    }
}
