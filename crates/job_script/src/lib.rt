//! Programs, and the words that the readers of all texts share.
//!
//! A program's text is read to nested acts, of which a repeat isn't written out and a child's body
//! stands once. A task is given the acts of its body one after the other. The words are numbers, modes,
//! operators, limits and objects with known keys, read from JSON. Which program a text spells, which
//! acts a body gives, and what each word is, is defined in `specs/`.
#![tactic(auto)]

mod act;
mod examples;
mod head;
mod items;
mod objects;
mod program;
mod reading;
mod said;
mod script_body;
mod seen;
mod stored;

pub use act::{Act, Answer};
pub use examples::{worked_bounds, worked_lengths, worked_names, worked_outer_objects};
pub use items::{
    accumulator_at, bound_at, bound_of, json_of, mode_at, number_at, number_of, ops_at, ops_of,
    value_at, word_at,
};
pub use objects::{has_only_keys, limits_of};
pub use phase_modes::{Pair, Phased};
pub use program::Program;
pub use reading::read_program;
pub use script_body::ScriptBody;
