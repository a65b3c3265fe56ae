// Initialising a part: it is marked, and with it the parts inside that begin when it does.
#![tactic(auto)]

ghost use Rattle.std.specs.Prelude.{◌≡◌, ◌+◌, ◌<◌, ◌≤◌, length};
ghost use Rattle.std.proofs.lemmas.List.Edits.{sets};
ghost use Rattle.meaning.specs.Program.{parts};
ghost use Rattle.meaning.specs.Cycle.{begins_in, begins, initial_marks};
ghost use Rattle.run_initialise.specs.Initialising.{InitialiseStep};

use meaning::Number;
use meaning::kinds::Kind;
use meaning::sizes::{MARKED, UNMARKED};
use program_table::table::Table;

// Whether part p, a child of part q of a kind, is initialised with it.
#[tactic(auto, unfolding(meaning::specs::Cycle::begins_in))]
fn begins_in(kind: Kind, q: Number, p: Number) -> bool
    ensures { result ≡ begins_in kind q p }
{
    match kind {
        Kind::Unknown | Kind::Goal | Kind::Start | Kind::Wait | Kind::Choice => false,
        Kind::Seq => usize::from(p) == usize::from(q) + 1,
        Kind::Par | Kind::Maintain | Kind::Repeat => true,
    }
}

// Whether part p, which is not the root, is initialised with its parent.
fn begins(t: Table<'_>, p: Number) -> bool
    requires p_nonzero { 0 < p }
    requires p_bound { p < parts t.bytes.now }
    ensures { result ≡ begins t.entry.bytes.now p }
{
    let q = t.parent(p);
    begins_in(t.kind(q), q, p)
}

// Stores part p's mark, and gives the number of parts to be skipped after it: what is inside a part that
// is not initialised is not initialised either.
fn initialise_step(t: Table<'_>, m: &mut [u8], from: usize, p: Number, skip: Number) -> Number
    requires p_nonzero { 0 < p }
    requires p_bound { p < parts t.bytes.now }
    requires t_in_bounds { from + parts t.bytes.now ≤ length m.old }
    ensures { InitialiseStep t.entry.bytes.now m.old from p skip m.new result }
{
    let i = from + usize::from(p);
    if skip > 0 {
        m[i] = UNMARKED;
        return skip - 1;
    }
    if begins(t, p) {
        m[i] = MARKED;
        return 0;
    }
    m[i] = UNMARKED;
    t.inside(p)
}

// Marks part q and what is initialised with it; `from` is where the marks of part 0 stand in m.
pub fn initialise(t: Table<'_>, m: &mut [u8], from: usize, q: Number)
    requires q_bound { q < parts t.bytes.now }
    requires t_in_bounds { from + parts t.bytes.now ≤ length m.old }
    ensures { m.new ≡ sets m.old (from + q) (initial_marks t.entry.bytes.now q) }
{
    m[from + usize::from(q)] = MARKED;
    let mut skip: Number = 0;
    for p in q + 1..t.end(q) {
        skip = initialise_step(t, m, from, p, skip);
    }
}
