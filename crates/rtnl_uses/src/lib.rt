//! A caller of each crate, as their `CALLING.md` show it.
#![tactic(auto)]

pub mod attributes;
pub mod datagrams;
pub mod dumps;
pub mod families;
pub mod links;
pub mod mirrors;
pub mod recordings;
pub mod requests;
pub mod streams;
pub mod tables;
pub mod values;
