// What document 01's table of kinds says of an entry: whether its kind is known, whether its
// operand is allowed, and how many children it has.
ghost use Rattle.std.specs.Prelude.{◌≡◌};
ghost use Rattle.meaning.specs.Kinds.{value, condition_allowed, goal_allowed, start_allowed, count_allowed, empty_allowed};
ghost use Rattle.meaning.specs.Program.{entry_known, entry_allowed, arity_of};
ghost use Rattle.program_part.specs.Children.{of_condition, children_of};

use meaning::kinds::{Kind, Test};
use meaning::sizes::MAX_VALUE;
use meaning::{Entry, Number, Operand};

#[tactic(auto, unfolding(meaning::specs::Program::entry_known, meaning::specs::Kinds::known))]
pub fn entry_known(e: Entry) -> bool
    ensures { result ≡ entry_known e }
{
    Kind::from(e.kind) != Kind::Unknown
}

// How many children follow the part.
#[tactic(auto, unfolding(meaning::specs::Program::arity_of, meaning::specs::Kinds::arity))]
pub fn arity(e: Entry) -> Number
    ensures { result ≡ arity_of e }
{
    match Kind::from(e.kind) {
        Kind::Seq | Kind::Par => e.operand.b0,
        Kind::Maintain | Kind::Repeat => 1,
        Kind::Choice => 2,
        Kind::Unknown | Kind::Goal | Kind::Start | Kind::Wait => 0,
    }
}

// The 16-bit value of an operand.
pub fn value(o: Operand) -> u16
    ensures { result ≡ value o }
{
    u16::from_le_bytes([o.b2, o.b3])
}

#[tactic(auto, unfolding(meaning::specs::Kinds::goal_allowed))]
fn goal_allowed(variables: u8, o: Operand) -> bool
    ensures { result ≡ goal_allowed variables o }
{
    (o.b0 == 0) & ((o.b1 < variables) & (value(o) <= MAX_VALUE))
}

#[tactic(auto, unfolding(meaning::specs::Kinds::start_allowed))]
fn start_allowed(clocks: u8, o: Operand) -> bool
    ensures { result ≡ start_allowed clocks o }
{
    (o.b0 == 0) & ((o.b1 < clocks) & (value(o) == 0))
}

#[tactic(auto, unfolding(meaning::specs::Kinds::count_allowed))]
fn count_allowed(o: Operand) -> bool
    ensures { result ≡ count_allowed o }
{
    (o.b0 != 0) & ((o.b1 == 0) & (value(o) == 0))
}

#[tactic(auto, unfolding(meaning::specs::Kinds::empty_allowed))]
fn empty_allowed(o: Operand) -> bool
    ensures { result ≡ empty_allowed o }
{
    (o.b0 == 0) & ((o.b1 == 0) & (value(o) == 0))
}

#[tactic(auto, unfolding(meaning::specs::Kinds::condition_allowed, meaning::specs::Kinds::test_allowed))]
pub fn condition_allowed(variables: u8, clocks: u8, o: Operand) -> bool
    ensures { result ≡ condition_allowed variables clocks o }
{
    match Test::from(o.b0) {
        Test::Equals | Test::Differs => (o.b1 < variables) & (value(o) <= MAX_VALUE),
        Test::AtLeast | Test::Below => o.b1 < clocks,
        Test::Untested => false,
    }
}

// The children of a part of a kind that has a condition, which is allowed or not; none where the kind has no condition.
fn of_condition(kind: Kind, allowed: bool) -> Option<Number>
    ensures { result ≡ of_condition kind allowed }
{
    match kind {
        Kind::Wait => allowed.then_some(0),
        Kind::Maintain => allowed.then_some(1),
        Kind::Choice => allowed.then_some(2),
        _ => None,
    }
}

// How many children follow a part, or none where its operand is not allowed. Operand and children are asked for
// together, and the kinds with a condition share an arm: so the compiler makes one short jump of it wherever it is
// called. In line, as a call takes some ten instructions more for each part.
#[inline(always)]
#[tactic(auto, unfolding(crate::specs::Children::children_of, meaning::specs::Program::entry_allowed, meaning::specs::Program::arity_of, meaning::specs::Kinds::arity, meaning::specs::Kinds::operand_allowed))]
pub fn children_of(variables: u8, clocks: u8, e: Entry) -> Option<Number>
    ensures { result ≡ children_of variables clocks e }
{
    let o = e.operand;
    match Kind::from(e.kind) {
        Kind::Goal => goal_allowed(variables, o).then_some(0),
        Kind::Start => start_allowed(clocks, o).then_some(0),
        Kind::Seq | Kind::Par => count_allowed(o).then_some(o.b0),
        Kind::Repeat => empty_allowed(o).then_some(1),
        kind => of_condition(kind, condition_allowed(variables, clocks, o)),
    }
}

#[tactic(auto, unfolding(crate::specs::Children::children_of))]
pub fn entry_allowed(variables: u8, clocks: u8, e: Entry) -> bool
    ensures { result ≡ entry_allowed variables clocks e }
{
    children_of(variables, clocks, e).is_some()
}
