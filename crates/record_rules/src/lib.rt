// Internal to full read: the two rules of strict reading (SCOPE 4.10), tested before a byte is written.
#![tactic(auto)]

pub mod arrays;
pub mod head;
pub mod rules;
