// Conditions, judged by an estimate, by the clocks of a table's record and by a time.
ghost use Rattle.std.specs.Prelude.{◌≡◌, true, not, ◌+◌, ◌-◌, ◌*◌, ◌<◌, ◌≤◌, eqb, leb, ltb, length, get_or};
ghost use Rattle.meaning.specs.Sizes.{unknown_value, max_clocks, time_width};
ghost use Rattle.meaning.specs.Kinds.{value, condition_allowed};
ghost use Rattle.meaning.specs.Program.{variables, clocks};
ghost use Rattle.meaning.specs.Record.{starts_place, time_at};
ghost use Rattle.meaning.specs.Conditions.{decided, open_unless, outcome, is_satisfied, is_violated, satisfied, violated};
ghost use Rattle.meaning.specs.Cycle.{situation};

use crate::fields::Record;
use meaning::kinds::Test;
use meaning::sizes::UNKNOWN_VALUE;
use meaning::{Operand, Outcome};
use program_part::kinds::value;

fn decided(b: bool) -> Outcome
    ensures { result ≡ decided b }
{
    if b {
        Outcome::Satisfied
    } else {
        Outcome::Violated
    }
}

// A test that came out as b, of a variable that is known or a clock that is started; open where it is
// not.
fn open_unless(testable: bool, b: bool) -> Outcome
    ensures { result ≡ open_unless testable b }
{
    if testable { decided(b) } else { Outcome::Open }
}

pub fn is_satisfied(x: Outcome) -> bool
    ensures { result ≡ is_satisfied x }
{
    x == Outcome::Satisfied
}

pub fn is_violated(x: Outcome) -> bool
    ensures { result ≡ is_violated x }
{
    x == Outcome::Violated
}

// Whether the operand's variable has its value: what ends a GOAL, and what tests 1 and 2 ask of a
// variable that is known. No GOAL of a program has the number that stands for an unknown variable as
// its value, so that a GOAL need not ask whether its variable is known.
pub fn has_value(est: &[u8], o: Operand) -> bool
    requires { o.b1 < length est.now }
    ensures { result ≡ eqb (get_or est.now o.b1 0) (value o) }
{
    u16::from(est[usize::from(o.b1)]) == value(o)
}

// What conditions of a table's program are judged by. The table is not read: it says which variables and
// clocks a condition may name, so that each is read without a test.
#[derive(Clone, Copy)]
pub struct Situation<'a> {
    pub table: &'a [u8],
    pub record: Record<'a>,
    pub estimate: &'a [u8],
    pub time: u32,
    pub ghost estimated: { variables table.now ≤ length estimate.now },
    pub ghost clocked: { clocks table.now ≤ max_clocks },
}

impl<'a> Situation<'a> {
    // Whether the variable is known.
    fn is_known(self, v: u8) -> bool
        requires { v < length self.estimate.now }
        ensures { result ≡ not (eqb (get_or self.entry.estimate.now v 0) unknown_value) }
    {
        self.estimate[usize::from(v)] != UNKNOWN_VALUE
    }

    pub fn has_value(self, o: Operand) -> bool
        requires { o.b1 < length self.estimate.now }
        ensures { result ≡ eqb (get_or self.entry.estimate.now o.b1 0) (value o) }
    {
        has_value(self.estimate, o)
    }

    // What clock c reads: 0 for a start that is still to come.
    fn reading(self, c: u8) -> u32
        requires { c < max_clocks }
        ensures { result ≡ self.entry.time - time_at self.entry.record.bytes.now (starts_place + time_width * c) }
    {
        self.time.saturating_sub(self.record.start_of(c))
    }

    fn at_least(self, o: Operand) -> bool
        requires { o.b1 < max_clocks }
        ensures { result ≡ leb (value o) (self.entry.time - time_at self.entry.record.bytes.now (starts_place + time_width * o.b1)) }
    {
        u32::from(value(o)) <= self.reading(o.b1)
    }

    fn below(self, o: Operand) -> bool
        requires { o.b1 < max_clocks }
        ensures { result ≡ ltb (self.entry.time - time_at self.entry.record.bytes.now (starts_place + time_width * o.b1)) (value o) }
    {
        self.reading(o.b1) < u32::from(value(o))
    }

    // What a condition of the program comes to.
    #[tactic(auto, unfolding(meaning::specs::Conditions::outcome))]
    pub fn outcome(self, o: Operand) -> Outcome
        requires { condition_allowed (variables self.table.now) (clocks self.table.now) o ≡ true }
        ensures { result ≡ outcome (situation self.entry.table.now self.entry.record.bytes.now self.entry.estimate.now self.entry.time) o }
    {
        match Test::from(o.b0) {
            Test::Equals => open_unless(self.is_known(o.b1), self.has_value(o)),
            Test::Differs => open_unless(self.is_known(o.b1), !self.has_value(o)),
            Test::AtLeast => open_unless(self.record.is_started(o.b1), self.at_least(o)),
            Test::Below => open_unless(self.record.is_started(o.b1), self.below(o)),
            Test::Untested => Outcome::Open,
        }
    }

    #[tactic(auto, unfolding(meaning::specs::Conditions::satisfied))]
    pub fn satisfied(self, o: Operand) -> bool
        requires { condition_allowed (variables self.table.now) (clocks self.table.now) o ≡ true }
        ensures { result ≡ satisfied (situation self.entry.table.now self.entry.record.bytes.now self.entry.estimate.now self.entry.time) o }
    {
        is_satisfied(self.outcome(o))
    }

    #[tactic(auto, unfolding(meaning::specs::Conditions::violated))]
    pub fn violated(self, o: Operand) -> bool
        requires { condition_allowed (variables self.table.now) (clocks self.table.now) o ≡ true }
        ensures { result ≡ violated (situation self.entry.table.now self.entry.record.bytes.now self.entry.estimate.now self.entry.time) o }
    {
        is_violated(self.outcome(o))
    }
}
