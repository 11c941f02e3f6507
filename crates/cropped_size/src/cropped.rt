// Internal: the arithmetic of the conformance window, each step at most 2^32 - 1.
ghost use Rattle.std.specs.Prelude.{◌≡◌};
ghost use Rattle.cropped_size.specs.Cropped.{sub_width, sub_height, cropped_side};

// SubWidthC by chroma format.
pub fn sub_width(chroma_format_idc: u8) -> u32
    ensures { result ≡ sub_width chroma_format_idc }
{
    match chroma_format_idc {
        1 | 2 => 2,
        _ => 1,
    }
}

// SubHeightC by chroma format.
pub fn sub_height(chroma_format_idc: u8) -> u32
    ensures { result ≡ sub_height chroma_format_idc }
{
    match chroma_format_idc {
        1 => 2,
        _ => 1,
    }
}

// A side less unit * (a + b), at least 1.
pub fn cropped_side(side: u32, unit: u32, a: u32, b: u32) -> u32
    ensures { result ≡ cropped_side side unit a b }
{
    let cut = unit.saturating_mul(a.saturating_add(b));
    side.saturating_sub(cut).max(1)
}
