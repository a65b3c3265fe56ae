// What a program's bytes name: a part's kind and a condition's test, in the order of document 01's tables. A byte that
// names none is `Unknown` or `Untested`.
ghost use Rattle.std.specs.Prelude.{◌≡◌};
ghost use Rattle.meaning.specs.Kinds.{kind_of, test_of, number_of, test_number};

#[derive(Clone, Copy, PartialEq, Eq)]
pub enum Kind {
    Unknown,
    Goal,
    Start,
    Wait,
    Seq,
    Par,
    Maintain,
    Choice,
    Repeat,
}

// A test of a variable against the value, or of a clock.
#[derive(Clone, Copy, PartialEq, Eq)]
pub enum Test {
    Untested,
    Equals,
    Differs,
    AtLeast,
    Below,
}

impl From<u8> for Kind {
    ghost from_gives = { λ b k. k ≡ kind_of b };

    // In line, so that a match on the kind is a match on the byte. Else it takes up to seven instructions more for
    // each part.
    #[inline(always)]
    #[tactic(auto, unfolding(crate::specs::Kinds::kind_of))]
    fn from(b: u8) -> Kind {
        match b {
            1 => Kind::Goal,
            2 => Kind::Start,
            3 => Kind::Wait,
            4 => Kind::Seq,
            5 => Kind::Par,
            6 => Kind::Maintain,
            7 => Kind::Choice,
            8 => Kind::Repeat,
            _ => Kind::Unknown,
        }
    }
}

impl From<Kind> for u8 {
    ghost from_gives = { λ k b. b ≡ number_of k };

    #[tactic(auto, unfolding(crate::specs::Kinds::number_of))]
    fn from(kind: Kind) -> u8 {
        kind as u8
    }
}

impl From<u8> for Test {
    ghost from_gives = { λ b test. test ≡ test_of b };

    // In line, as for a kind.
    #[inline(always)]
    #[tactic(auto, unfolding(crate::specs::Kinds::test_of))]
    fn from(b: u8) -> Test {
        match b {
            1 => Test::Equals,
            2 => Test::Differs,
            3 => Test::AtLeast,
            4 => Test::Below,
            _ => Test::Untested,
        }
    }
}

impl From<Test> for u8 {
    ghost from_gives = { λ test b. b ≡ test_number test };

    #[tactic(auto, unfolding(crate::specs::Kinds::test_number))]
    fn from(test: Test) -> u8 {
        test as u8
    }
}
