// The answers of the calls for C and Rust: structs of numbers. Crates above, one for each family, have the calls, and `vvcc_c` exports them.
#![tactic(auto)]

pub mod answers;

// The answer of a call that writes: 0 and how many bytes are now at the front of the output, or a refusal's number and 0.
#[repr(C)]
#[derive(Clone, Copy)]
pub struct VvccWritten {
    pub refusal: u32,
    pub len: usize,
}

// The answer of a call that reads a record: 0 and how many bytes were consumed, or a refusal's number and 0.
#[repr(C)]
#[derive(Clone, Copy)]
pub struct VvccRead {
    pub refusal: u32,
    pub consumed: usize,
}

// The answer of one step of a walk: 0, 1, where the unit lies and the place to continue from; zeros at the end; or a refusal's number and
// zeros.
#[repr(C)]
#[derive(Clone, Copy)]
pub struct VvccUnit {
    pub refusal: u32,
    pub found: u32,
    pub start: usize,
    pub len: usize,
    pub next: usize,
}

// The answer of the unit check: 0, and 1 if the unit passes, else 0; or a refusal's number and 0.
#[repr(C)]
#[derive(Clone, Copy)]
pub struct VvccCheck {
    pub refusal: u32,
    pub passes: u32,
}
