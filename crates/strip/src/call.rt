// The calls of a strip, as values: runs are lists of them, and the law speaks of each.

#[derive(Clone, Copy)]
pub enum Call {
    Spread,
    SetCurve {
        curve: u32,
        exponent: f32,
    },
    DropCurve {
        curve: u32,
    },
    LayPatch {
        patch: usize,
        reading: f32,
        curve: u32,
    },
    ChangeReading {
        patch: usize,
        reading: f32,
    },
    MovePatch {
        patch: usize,
        curve: u32,
    },
    LiftPatch {
        patch: usize,
    },
    ReadPatch {
        patch: usize,
    },
    Finish,
    Reopen,
}
