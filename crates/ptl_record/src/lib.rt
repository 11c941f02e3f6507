// VvcPTLRecord (ISO/IEC 14496-15 11.2.4.1) in a full record: its definitions, read and written, and how many levels it has.
#![tactic(auto)]

pub mod levels;
