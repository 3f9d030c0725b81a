// Values at the limits of the rules.
ghost use Rattle.std.specs.Prelude.{◌≡◌};
ghost use Rattle.power.specs.Limits.{Limits, table};

// The bit patterns of x, y and x^y on the portable backend: each power is proved. A table of tuples, taken
// apart where it is read.
#[tactic(auto, using(crate::proofs::Computed::limits))]
pub fn limits() -> [(u32, u32, u32); 11]
    ensures entries { result ≡ table }
    ensures powers { Limits }
{
    [
        (0x4170_0000, 0x4130_0000, 0x54fb_bdb4),
        (0x3f80_4000, 0x4040_0000, 0x3f80_c060),
        (0x4040_0000, 0x4040_0000, 0x41d8_0000),
        (0xc000_0000, 0xc040_0000, 0xbe00_0000),
        (0x4180_0000, 0xbe80_0000, 0x3f00_0000),
        (0x2680_0000, 0x4040_0000, 0x0000_0000),
        (0x5f80_0000, 0x4000_0000, 0x7f80_0000),
        (0xbf80_0000, 0x4f00_0000, 0x3f80_0000),
        (0xff80_0000, 0x4060_0000, 0x7f80_0000),
        (0x7fc0_0000, 0x0000_0000, 0x3f80_0000),
        (0x8000_0000, 0x4040_0000, 0x8000_0000),
    ]
}
