//! What the attributes of rtnetlink are called, and what their payloads mean (Linux 6.12).
//!
//! - `set`, `structs`, `names` and `choice`: what the tables say of a set of attributes, a struct,
//!   named values or bits, and a sub-message. Each goes by a number.
//! - `format`: what a payload or a field is.
//! - `numbers`: numbers of all sizes, signs and byte orders.
//! - `meaning`: what a payload means. `reading` reads that by a format.
//! - `tables`: the tables, which `format/values.py` writes.
#![tactic(auto)]

mod choice;
mod format;
mod meaning;
mod names;
mod numbers;
mod reading;
mod rows;
mod set;
mod structs;
mod tables;
mod text;

pub use choice::Choice;
pub use format::{Format, Number, Selector};
pub use meaning::{Meaning, Reading};
pub use names::Names;
pub use numbers::Integer;
pub use reading::read_meaning;
pub use set::{Attribute, Set};
pub use structs::{Field, Struct};
