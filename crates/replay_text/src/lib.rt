// The text of the cases and answers of `replay`: digits, numbers, lines, and plain answers.
#![tactic(auto)]

pub mod fields;
pub mod shown;
pub mod text;
