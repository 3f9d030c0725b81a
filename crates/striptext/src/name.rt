// The names of the calls.
ghost use Rattle.striptext.specs.Name as Spec;

use crate::word::Word;

#[derive(Clone, Copy)]
pub(crate) enum Name {
    Spread,
    SetCurve,
    DropCurve,
    LayPatch,
    ChangeReading,
    MovePatch,
    LiftPatch,
    ReadPatch,
    Finish,
    Reopen,
}

impl Word for Name {
    ghost given = { Spec.name };

    fn of_word(word: &[u8]) -> Option<Name> {
        match word {
            b"spread" => Some(Name::Spread),
            b"set-curve" => Some(Name::SetCurve),
            b"drop-curve" => Some(Name::DropCurve),
            b"lay-patch" => Some(Name::LayPatch),
            b"change-reading" => Some(Name::ChangeReading),
            b"move-patch" => Some(Name::MovePatch),
            b"lift-patch" => Some(Name::LiftPatch),
            b"read-patch" => Some(Name::ReadPatch),
            b"finish" => Some(Name::Finish),
            b"reopen" => Some(Name::Reopen),
            _ => None,
        }
    }
}
