// Records, their shapes and registers, and the questions put to each record before a list is reduced or surveyed (the Rust's mir.rs).
#![tactic(auto)]

pub mod config;
pub mod laws;
pub mod questions;
pub mod record;
pub mod refusal;
pub mod rename;
pub mod shape;
