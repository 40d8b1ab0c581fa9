//! The names of the SSE registers.

ghost use Rattle.std.specs.Prelude.{◌≡◌};
ghost use Rattle.xs_gen.specs.Generated.{xmm_name};

/// The register that the four lowest bits of a byte name.
pub fn xmm_name(byte: u8) -> &'static [u8]
    ensures { result.now ≡ xmm_name byte }
{
    match byte % 16 {
        0 => b"xmm0",
        1 => b"xmm1",
        2 => b"xmm2",
        3 => b"xmm3",
        4 => b"xmm4",
        5 => b"xmm5",
        6 => b"xmm6",
        7 => b"xmm7",
        8 => b"xmm8",
        9 => b"xmm9",
        10 => b"xmm10",
        11 => b"xmm11",
        12 => b"xmm12",
        13 => b"xmm13",
        14 => b"xmm14",
        _ => b"xmm15",
    }
}
