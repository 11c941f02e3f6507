// The lengths of the record and of the stream of a still (SCOPE 4.7), or the refusal. Nothing is written.
#![tactic(auto)]

pub mod record;
pub mod stream;
