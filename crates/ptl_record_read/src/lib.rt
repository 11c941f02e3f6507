// Reads VvcPTLRecord (ISO/IEC 14496-15 11.2.4.1) of a full record.
#![tactic(auto)]

pub mod read;
