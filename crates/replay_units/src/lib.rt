// The calls on bytes and units that `replay` makes: those of `error`, `boxes`, `nal`, `unit_check`, `list_units`, `split` and `annex_b`.
#![tactic(auto)]

pub mod boxes_calls;
pub mod list_calls;
pub mod nal_calls;
pub mod split_calls;
