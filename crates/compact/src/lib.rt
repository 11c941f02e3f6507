// The compact record and the item data of a still as bytes (SCOPE 3.2, 3.11, 4.1, 4.2).
#![tactic(auto)]

// The configuration of a compact record: CompactVvcDecoderConfigurationRecord (ISO/IEC 23008-12 Amd 2 L.4.3.3) without its units,
// which are in a unit list.
#[derive(Clone, Copy, Debug, PartialEq, Eq)]
pub struct CompactVvcConfig {
    pub multi_layer_flag: bool,
    pub length_size: u8,
}

// What reading a compact record gives: its configuration, its unit count, and the length of the list in the output.
#[derive(Clone, Copy, Debug, PartialEq, Eq)]
pub struct CompactRead {
    pub config: CompactVvcConfig,
    pub unit_count: usize,
    pub list_length: usize,
}
