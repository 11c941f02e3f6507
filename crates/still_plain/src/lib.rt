// Internal to `still_stream` and `still_measure`: the stream of a still whose multi-layer flag is clear (SCOPE 4.7), measured and written.
#![tactic(auto)]

pub mod measure;
pub mod plain;
