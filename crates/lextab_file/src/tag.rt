//! The first bytes of cuts and statements in a table file, which tell their kinds.
ghost use Rattle.std.specs.Prelude.{◌≡◌};
ghost use Rattle.lextab_file.specs.Tags.{cut_byte, statement_byte, IsByte};

/// The kind of a cut.
#[derive(Clone, Copy)]
pub(crate) enum CutTag {
    Whole,
    Head,
    Trail,
}

impl CutTag {
    /// The byte that stands for it.
    pub fn byte(self) -> u8
        ensures { result ≡ cut_byte self }
    {
        match self {
            CutTag::Whole => 0,
            CutTag::Head => 1,
            CutTag::Trail => 2,
        }
    }

    /// The kind that the byte stands for.
    pub fn of(byte: u8) -> Option<CutTag>
        ensures { IsByte cut_byte 3 byte result }
    {
        match byte {
            0 => Some(CutTag::Whole),
            1 => Some(CutTag::Head),
            2 => Some(CutTag::Trail),
            _ => None,
        }
    }
}

/// The kind of a statement.
#[derive(Clone, Copy)]
pub(crate) enum StatementTag {
    Echo,
    Print,
    Begin,
    More,
    Less,
    Reject,
    End,
    Push,
    Pop,
}

impl StatementTag {
    /// The byte that stands for it.
    pub fn byte(self) -> u8
        ensures { result ≡ statement_byte self }
    {
        match self {
            StatementTag::Echo => 0,
            StatementTag::Print => 1,
            StatementTag::Begin => 2,
            StatementTag::More => 3,
            StatementTag::Less => 4,
            StatementTag::Reject => 5,
            StatementTag::End => 6,
            StatementTag::Push => 7,
            StatementTag::Pop => 8,
        }
    }

    /// The kind that the byte stands for.
    pub fn of(byte: u8) -> Option<StatementTag>
        ensures { IsByte statement_byte 9 byte result }
    {
        match byte {
            0 => Some(StatementTag::Echo),
            1 => Some(StatementTag::Print),
            2 => Some(StatementTag::Begin),
            3 => Some(StatementTag::More),
            4 => Some(StatementTag::Less),
            5 => Some(StatementTag::Reject),
            6 => Some(StatementTag::End),
            7 => Some(StatementTag::Push),
            8 => Some(StatementTag::Pop),
            _ => None,
        }
    }
}
