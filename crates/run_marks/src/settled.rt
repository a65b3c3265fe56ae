// The marks after a settling. The parts are settled from the last one down, so that what is inside a
// part is settled before it. Marks before the settling are read from the record and those after it
// are written to a list of their own, so that a part marked by this settling is not judged by it. That
// list stays a slice whose length the clauses ask for: a type round it would have to be lent anew at each call.
ghost use Rattle.std.specs.Prelude.{◌≡◌, ◌<◌, ◌≤◌, length, IfSome};
ghost use Rattle.std.proofs.lemmas.List.Edits.{sets};
ghost use Rattle.meaning.specs.Program.{parts, variables};
ghost use Rattle.meaning.specs.Cycle.{settled_marks};
ghost use Rattle.run_marks.specs.Settling.{mark_after, named, follower, PossibleTransition, mark_stored, lowest_with, part_transition, part_marks, part_lowest};

use crate::transitions::transition;
use meaning::sizes::{MARKED, NO_PART, UNMARKED};
use meaning::{Number, Transition};
use program_table::table::Table;
use run_initialise::initialise;
use run_record::conditions::Situation;
use run_record::fields::Record;

// The lowest marked part after a part, by the marks before and after the settling; the number of
// parts where none is marked. It spares looking into a part: something is marked inside it where
// the lowest marked part after it stands before its end.
#[derive(Clone, Copy)]
pub struct Lowest {
    pub old: Number,
    pub new: Number,
}

// The mark that a transition leaves its part.
fn mark_after(f: Transition) -> u8
    ensures { result ≡ mark_after f }
{
    match f {
        Transition::Ends => UNMARKED,
        Transition::Stays | Transition::First | Transition::Second => MARKED,
    }
}

// The part that a number of a table's row names, if it names one.
fn named(q: Number) -> Option<Number>
    ensures { result ≡ named q }
{
    (q != NO_PART).then_some(q)
}

// The part that is initialised by a transition of part p.
fn follower(t: Table<'_>, p: Number, f: Transition) -> Option<Number>
    requires p_bound { p < parts t.bytes.now }
    requires possible_transition { PossibleTransition t.bytes.now p f }
    ensures { result ≡ follower t.entry.bytes.now p f }
{
    match f {
        Transition::Stays => None,
        Transition::Ends => named(t.next(p)),
        Transition::First => Some(p + 1),
        Transition::Second => Some(t.end(p + 1)),
    }
}

// Stores mark x for part p, and initialises part q where there is one.
fn store_mark(t: Table<'_>, m: &mut [u8], p: Number, x: u8, q: Option<Number>)
    requires p_bound { p < parts t.bytes.now }
    requires q_bound { IfSome q (λ q. q < parts t.bytes.now) }
    requires t_in_bounds { parts t.bytes.now ≤ length m.old }
    ensures { m.new ≡ mark_stored t.entry.bytes.now p x q m.old }
{
    m[usize::from(p)] = x;
    if let Some(q) = q {
        initialise(t, m, 0, q);
    }
}

// The lowest marked part from p on after that; `low` is the lowest one after p before it.
#[tactic(auto, unfolding(crate::specs::Settling::lowest_with))]
fn lowest_with(p: Number, x: u8, q: Option<Number>, low: Number) -> Number
    ensures { result ≡ lowest_with p x q low }
{
    if x != UNMARKED {
        return p;
    }
    match q {
        Some(q) => q.min(low),
        None => low,
    }
}

// What a settling is judged by: the table, the record before it and the new estimate.
#[derive(Clone, Copy)]
pub struct Settling<'a> {
    pub table: Table<'a>,
    pub record: Record<'a>,
    pub estimate: &'a [u8],
    pub ghost estimated: { variables table.bytes.now ≤ length estimate.now },
}

impl<'a> Settling<'a> {
    // What becomes of part p if it is marked, where these are the lowest marked parts after it.
    fn transition(self, p: Number, low: Lowest) -> Transition
        requires { p < parts self.table.bytes.now }
        ensures { result ≡ part_transition self.entry.table.bytes.now self.entry.record.bytes.now self.entry.estimate.now p low }
    {
        let sit = Situation {
            table: self.table.bytes,
            record: self.record,
            estimate: self.estimate,
            time: self.record.last_time(),
        };
        let end = self.table.end(p);
        transition(sit, self.table.entry(p), low.old < end, low.new < end)
    }

    // Settles part p, and gives the lowest marked parts from p on.
    fn settle_part(self, m: &mut [u8], p: Number, low: Lowest) -> Lowest
        requires p_bound { p < parts self.table.bytes.now }
        requires m_in_bounds { parts self.table.bytes.now ≤ length m.old }
        ensures value { result ≡ part_lowest self.entry.table.bytes.now self.entry.record.bytes.now self.entry.estimate.now p low }
        ensures m_after { m.new ≡ part_marks self.entry.table.bytes.now self.entry.record.bytes.now self.entry.estimate.now p low m.old }
    {
        if !self.record.is_marked(p) {
            m[usize::from(p)] = UNMARKED;
            return low;
        }
        let f = self.transition(p, low);
        let x = mark_after(f);
        let q = follower(self.table, p, f);
        store_mark(self.table, m, p, x, q);
        Lowest {
            old: p,
            new: lowest_with(p, x, q, low.new),
        }
    }

    // Stores the marks after the settling at the beginning of m.
    pub fn store_marks(self, m: &mut [u8])
        requires { parts self.table.bytes.now ≤ length m.old }
        ensures { m.new ≡ sets m.old 0 (settled_marks self.entry.table.bytes.now self.entry.record.bytes.now self.entry.estimate.now) }
    {
        let parts = self.table.parts();
        let mut low = Lowest {
            old: parts,
            new: parts,
        };
        for p in (0..parts).rev() {
            low = self.settle_part(m, p, low);
        }
    }
}
