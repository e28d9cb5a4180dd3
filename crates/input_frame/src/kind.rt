// The kinds of records, the sixteen calls and new: each is a byte, `kind as u8`.
ghost use Rattle.input_frame.specs.Kind.{Decodes};

#[derive(Clone, Copy, PartialEq, Eq)]
pub enum Kind {
    Dial = 1,
    Abandon = 2,
    Arrived = 3,
    Msg1 = 4,
    Replacement = 5,
    Sent = 6,
    Unsent = 7,
    Msg2 = 8,
    Restarted = 9,
    Heard = 10,
    Remove = 11,
    Poll = 12,
    Close = 13,
    Path = 14,
    Release = 15,
    Wake = 16,
    New = 17,
}

impl Kind {
    ghost use Rattle.std.specs.Prelude.{◌≡◌};
    ghost use Rattle.input_frame.specs.Kind.{code_of};

    // Its byte.
    pub fn byte(self) -> u8
        ensures { result ≡ code_of self }
    {
        self as u8
    }
}

// A byte that is no kind.
#[derive(Clone, Copy, PartialEq, Eq)]
pub struct UnknownKind(pub u8);

impl TryFrom<u8> for Kind {
    type Error = UnknownKind;

    ghost try_from_gives = { Decodes };

    fn try_from(code: u8) -> Result<Self, UnknownKind> {
        match code {
            1 => Ok(Kind::Dial),
            2 => Ok(Kind::Abandon),
            3 => Ok(Kind::Arrived),
            4 => Ok(Kind::Msg1),
            5 => Ok(Kind::Replacement),
            6 => Ok(Kind::Sent),
            7 => Ok(Kind::Unsent),
            8 => Ok(Kind::Msg2),
            9 => Ok(Kind::Restarted),
            10 => Ok(Kind::Heard),
            11 => Ok(Kind::Remove),
            12 => Ok(Kind::Poll),
            13 => Ok(Kind::Close),
            14 => Ok(Kind::Path),
            15 => Ok(Kind::Release),
            16 => Ok(Kind::Wake),
            17 => Ok(Kind::New),
            _ => Err(UnknownKind(code)),
        }
    }
}
