// `replay_calls` for C and Rust, linked with a program that has more memory than `replay`: for cases with inputs of more than 2^30 bytes, refusal 23.
#![tactic(auto)]

// Writes the answer line of a case and returns its length.
#[unsafe(no_mangle)]
pub extern "C" fn replay_line(input: &[u8], lent: &mut [u8], out: &mut [u8]) -> usize {
    replay_calls::replay_line(input, lent, out)
}
