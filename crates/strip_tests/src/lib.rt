// What a strip answers on examples: each refusal, the order of the places, cells from elsewhere, the
// largest strip.
#![tactic(auto)]

#[cfg(test)]
mod tests {
    use power::fused::Fused;
    use power::portable::Portable;
    use std::num::f32_to_bits_with_nan;
    use std::process::Abort;
    use std::test::Fail;
    use strip::patch::{Patch, View};
    use strip::refusal::Refusal;
    use strip::strip::OpenStrip;

    // The pattern of an answer.
    fn shows(rt: &impl Abort, x: f32, expected: u32) {
        assert_eq!(rt; f32_to_bits_with_nan(x), expected);
    }

    fn is(rt: &impl Abort, cell: Patch, filled: bool, reading: u32, curve: u32, shown: u32) {
        assert_eq!(rt; cell.filled, filled);
        shows(rt, cell.reading, reading);
        assert_eq!(rt; cell.curve, curve);
        shows(rt, cell.shown, shown);
    }

    // 3 and -3 under 3, then under 2.
    #[test]
    fn cubes_and_squares(rt: HostRuntime) -> Result<(), Fail> {
        let mut cells = [Patch::empty(); 4];
        let mut strip = OpenStrip::new(Portable {});
        strip.spread(&mut cells)?;
        strip.set_curve(&mut cells, 0, 3.0)?;
        shows(&rt, strip.lay_patch(&mut cells, 2, 3.0, 0)?, 0x41d8_0000);
        shows(&rt, strip.lay_patch(&mut cells, 1, -3.0, 0)?, 0xc1d8_0000);
        assert_eq!(rt; strip.set_curve(&mut cells, 0, 2.0)?, 2);
        is(&rt, cells[2], true, 0x4040_0000, 0, 0x4110_0000);
        is(&rt, cells[1], true, 0xc040_0000, 0, 0x4110_0000);
        is(&rt, cells[0], false, 0, 0, 0);
        assert_eq!(rt;
            strip.drop_curve(&cells, 0).err(),
            Some(Refusal::CurveInUse)
        );
        Ok(())
    }

    // A strip of two cells with curve 1 set, a filled patch 0 under it, and an empty patch 1.
    fn ready(cells: &mut [Patch; 2]) -> Result<OpenStrip<Portable>, Refusal> {
        let mut strip = OpenStrip::new(Portable {});
        strip.spread(cells)?;
        strip.set_curve(cells, 1, 2.0)?;
        strip.lay_patch(cells, 0, 3.0, 1)?;
        Ok(strip)
    }

    // The refusals below are compared as values; these are their numbers.
    #[test]
    fn numbers(rt: HostRuntime) {
        let numbered = [
            (Refusal::Spreading, 1),
            (Refusal::Cells, 2),
            (Refusal::PatchNumber, 3),
            (Refusal::CurveNumber, 4),
            (Refusal::Exponent, 5),
            (Refusal::CurveUnset, 6),
            (Refusal::PatchFilled, 7),
            (Refusal::PatchEmpty, 8),
            (Refusal::CurveInUse, 9),
        ];
        for (refusal, number) in numbered {
            assert_eq!(rt; refusal.number(), number);
        }
    }

    // Each place, with every later place objecting too.
    #[test]
    fn places_in_order(rt: HostRuntime) -> Result<(), Fail> {
        let mut cells = [Patch::empty(); 2];
        let mut other = [Patch::empty(); 3];
        let mut strip = ready(&mut cells)?;
        assert_eq!(rt; strip.spread(&mut []).err(), Some(Refusal::Spreading));
        assert_eq!(rt;
            strip.lay_patch(&mut other, 9, 1.0, 16).err(),
            Some(Refusal::Cells)
        );
        assert_eq!(rt;
            strip.lay_patch(&mut cells, 2, 1.0, 16).err(),
            Some(Refusal::PatchNumber)
        );
        assert_eq!(rt;
            strip.lay_patch(&mut cells, 0, 1.0, 16).err(),
            Some(Refusal::CurveNumber)
        );
        assert_eq!(rt;
            strip.set_curve(&mut cells, 16, f32::NAN).err(),
            Some(Refusal::CurveNumber)
        );
        assert_eq!(rt;
            strip.set_curve(&mut cells, 15, f32::NAN).err(),
            Some(Refusal::Exponent)
        );
        assert_eq!(rt;
            strip.lay_patch(&mut cells, 0, 1.0, 2).err(),
            Some(Refusal::CurveUnset)
        );
        assert_eq!(rt;
            strip.lay_patch(&mut cells, 0, 1.0, 1).err(),
            Some(Refusal::PatchFilled)
        );
        assert_eq!(rt;
            strip.move_patch(&mut cells, 1, 2).err(),
            Some(Refusal::CurveUnset)
        );
        assert_eq!(rt;
            strip.move_patch(&mut cells, 1, 1).err(),
            Some(Refusal::PatchEmpty)
        );
        assert_eq!(rt;
            strip.change_reading(&mut cells, 1, 1.0).err(),
            Some(Refusal::PatchEmpty)
        );
        assert_eq!(rt;
            strip.lift_patch(&mut cells, 1).err(),
            Some(Refusal::PatchEmpty)
        );
        assert_eq!(rt;
            strip.read_patch(&cells, 1).err(),
            Some(Refusal::PatchEmpty)
        );
        assert_eq!(rt;
            strip.drop_curve(&cells, 2).err(),
            Some(Refusal::CurveUnset)
        );
        assert_eq!(rt;
            strip.drop_curve(&cells, 1).err(),
            Some(Refusal::CurveInUse)
        );
        is(&rt, cells[0], true, 0x4040_0000, 1, 0x4110_0000);
        is(&rt, cells[1], false, 0, 0, 0);
        Ok(())
    }

    // A filled patch under an unset curve, and under one above 15: exponent 0, so that it shows 1.
    #[test]
    fn cells_from_elsewhere(rt: HostRuntime) -> Result<(), Fail> {
        let mut cells = [Patch::empty(); 2];
        let strip = ready(&mut cells)?;
        cells[0] = Patch {
            filled: true,
            reading: 5.0,
            curve: 7,
            shown: 4.0,
        };
        cells[1] = Patch {
            filled: true,
            reading: 5.0,
            curve: 99,
            shown: 4.0,
        };
        shows(&rt, strip.change_reading(&mut cells, 0, 6.0)?, 0x3f80_0000);
        shows(&rt, strip.change_reading(&mut cells, 1, 6.0)?, 0x3f80_0000);
        is(&rt, cells[0], true, 0x40c0_0000, 7, 0x3f80_0000);
        is(&rt, cells[1], true, 0x40c0_0000, 99, 0x3f80_0000);
        Ok(())
    }

    // 4,096 cells are spread and 4,097 are not; the last curve of the last patch is reworked.
    #[test]
    fn largest_strip(rt: HostRuntime) -> Result<(), Fail> {
        let mut cells = [Patch::empty(); 4096];
        let mut many = [Patch::empty(); 4097];
        let mut strip = OpenStrip::new(Fused {});
        assert_eq!(rt; strip.spread(&mut many).err(), Some(Refusal::Spreading));
        strip.spread(&mut cells)?;
        strip.set_curve(&mut cells, 15, 3.0)?;
        shows(
            &rt,
            strip.lay_patch(&mut cells, 4095, 3.0, 15)?,
            0x41d8_0000,
        );
        assert_eq!(rt;
            strip.lay_patch(&mut cells, 4096, 3.0, 15).err(),
            Some(Refusal::PatchNumber)
        );
        assert_eq!(rt; strip.set_curve(&mut cells, 15, 2.0)?, 1);
        is(&rt, cells[4095], true, 0x4040_0000, 15, 0x4110_0000);
        Ok(())
    }

    // A dropped curve is set again; a finished strip is read and reopened.
    #[test]
    fn finish_and_reopen(rt: HostRuntime) -> Result<(), Fail> {
        let mut cells = [Patch::empty(); 2];
        let finished = ready(&mut cells)?.finish();
        let View {
            reading,
            curve,
            shown,
        } = finished.read_patch(&cells, 0)?;
        shows(&rt, reading, 0x4040_0000);
        assert_eq!(rt; curve, 1);
        shows(&rt, shown, 0x4110_0000);
        let mut strip = finished.reopen();
        shows(&rt, strip.lift_patch(&mut cells, 0)?, 0x4040_0000);
        shows(&rt, strip.drop_curve(&cells, 1)?, 0x4000_0000);
        assert_eq!(rt;
            strip.lay_patch(&mut cells, 0, 3.0, 1).err(),
            Some(Refusal::CurveUnset)
        );
        strip.set_curve(&mut cells, 1, 3.0)?;
        shows(&rt, strip.lay_patch(&mut cells, 0, 3.0, 1)?, 0x41d8_0000);
        Ok(())
    }
}
