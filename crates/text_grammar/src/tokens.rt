// The tokens of a text.

// The words, and the signs without a number.
#[derive(Clone, Copy, PartialEq, Eq)]
pub enum Mark {
    StartWord,
    WaitWord,
    MaintainWord,
    RepeatWord,
    IfWord,
    ThenWord,
    ElseWord,
    EqualSign,
    DiffersSign,
    AtLeastSign,
    BelowSign,
    Semicolon,
    Comma,
    Opening,
    Closing,
    Colon,
}

// A mark, a number, `v` or `c` with a number, or a run of bytes that is no sign.
#[derive(Clone, Copy, PartialEq, Eq)]
pub enum Token {
    Mark(Mark),
    Number(u16),
    Variable(u16),
    Clock(u16),
    Unknown,
}
