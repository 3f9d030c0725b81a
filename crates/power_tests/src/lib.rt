// What the power answers on examples, on both backends: the values at the limits, special cases,
// exact cases, opposite bases, and the mistakes that it must not make.
#![tactic(auto)]

#[cfg(test)]
mod tests {
    use answers::Case;
    use power::fused::Fused;
    use power::limits::limits;
    use power::portable::Portable;
    use std::process::Abort;

    // The same answer on both backends.
    fn both(rt: &impl Abort, x: u32, y: u32, expected: u32) {
        let case = Case { x, y, expected };
        assert_eq!(rt; case.power(&Portable {}), expected);
        assert_eq!(rt; case.power(&Fused {}), expected);
    }

    // The definitions are proved to give these on the portable backend; here the compiled code is
    // run on them, and on the fused one too.
    #[test]
    fn limits_run(rt: HostRuntime) {
        for (x, y, expected) in limits() {
            both(&rt, x, y, expected);
        }
    }

    // Eleven significant bits, cubed, leave the loop.
    #[test]
    fn past_the_loop(rt: HostRuntime) {
        both(&rt, 0x3f80_2000, 0x4040_0000, 0x3f80_6018);
    }

    // Negative zero keeps its sign at 23 and loses it at 25; below 0 it overflows.
    #[test]
    fn negative_zero(rt: HostRuntime) {
        both(&rt, 0x8000_0000, 0x41b8_0000, 0x8000_0000);
        both(&rt, 0x8000_0000, 0x41c8_0000, 0);
        both(&rt, 0x8000_0000, 0xc040_0000, 0x7f80_0000);
    }

    // (-1)^∞, 0.5^-∞, (-∞)^-3, (-∞)^2.5, (-8)^(1/3), (+0)^-1.
    #[test]
    fn special_cases(rt: HostRuntime) {
        both(&rt, 0xbf80_0000, 0x7f80_0000, 0x3f80_0000);
        both(&rt, 0x3f00_0000, 0xff80_0000, 0x7f80_0000);
        both(&rt, 0xff80_0000, 0xc040_0000, 0x8000_0000);
        both(&rt, 0xff80_0000, 0x4020_0000, 0x7f80_0000);
        both(&rt, 0xc100_0000, 0x3eaa_aaab, 0x7fc0_0000);
        both(&rt, 0x0000_0000, 0xbf80_0000, 0x7f80_0000);
    }

    // (2^-100)^1.5, a tie at 2^-150, gives 0; (2^-148)^-0.5, 4^0.5 and (2^64)^-2 are powers of two;
    // 3^24 is a product, rounded once.
    #[test]
    fn exact_cases(rt: HostRuntime) {
        both(&rt, 0x0d80_0000, 0x3fc0_0000, 0);
        both(&rt, 0x0000_0002, 0xbf00_0000, 0x6480_0000);
        both(&rt, 0x4080_0000, 0x3f00_0000, 0x4000_0000);
        both(&rt, 0x5f80_0000, 0xc000_0000, 0x0020_0000);
        both(&rt, 0x4040_0000, 0x41c0_0000, 0x5283_8439);
    }

    // (-3)^5 = -(3^5), (-3)^4 = 3^4, and (-1)^16777215 = -1.
    #[test]
    fn opposite_bases(rt: HostRuntime) {
        both(&rt, 0xc040_0000, 0x40a0_0000, 0xc373_0000);
        both(&rt, 0xc040_0000, 0x4080_0000, 0x42a2_0000);
        both(&rt, 0xbf80_0000, 0x4b7f_ffff, 0xbf80_0000);
    }

    // A tie with a fractional exponent, where the reference answers the odd neighbour.
    #[test]
    fn fractional_tie(rt: HostRuntime) {
        let case = Case {
            x: 0x0d61_7810,
            y: 0x3fa0_0000,
            expected: 0x00da_6c4f,
        };
        assert_eq!(rt; case.power(&Portable {}), case.expected);
    }

    // A tie at which the two builds of the reference differ.
    #[test]
    fn builds_differ(rt: HostRuntime) {
        let portable = Case {
            x: 0x40bc_e880,
            y: 0x3fc0_0000,
            expected: 0x4165_7e74,
        };
        let fused = Case {
            expected: 0x4165_7e73,
            ..portable
        };
        assert_eq!(rt; portable.power(&Portable {}), portable.expected);
        assert_eq!(rt; fused.power(&Fused {}), fused.expected);
    }

    // The fallback of a negative base is that of its magnitude, negated.
    #[test]
    fn sign_of_the_fallback(rt: HostRuntime) {
        both(&rt, 0xbf45_e3bf, 0x4339_0000, 0x9d1b_a666);
        both(&rt, 0x3f45_e3bf, 0x4339_0000, 0x1d1b_a666);
    }
}
