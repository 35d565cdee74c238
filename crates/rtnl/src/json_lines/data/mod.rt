//! What a payload means, as a value of JSON.
//!
//! - `kinds`: the attribute that says what another one holds.
//! - `leaves`: numbers, names, texts and addresses.
//! - `inside`: structs and attributes, and what these hold.

pub(crate) mod inside;
pub(crate) mod kinds;
pub(crate) mod leaves;
