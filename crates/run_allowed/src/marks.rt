// What an allowed record's marks must be: the root's, and those of each part's children.
ghost use Rattle.std.specs.Prelude.{◌≡◌, suc, ◌+◌, ◌-◌, ◌<◌, ◌≤◌, length, get_or, drop};
ghost use Rattle.base.specs.Lists.{any, bytes_at};
ghost use Rattle.meaning.specs.Program.{parts};
ghost use Rattle.meaning.specs.Record.{marks_place, phase_of, marks_in, is_mark, marked_children, children_allowed, part_allowed, parts_allowed, root_allowed};
ghost use Rattle.run_allowed.specs.Inner.{inner_marks, part_after};

use meaning::Number;
use meaning::kinds::Kind;
use meaning::sizes::{FINISHED, MARKS_PLACE, OFFERED, UNMARKED};
use program_table::table::Table;
use run_record::fields::{Record, phase};

// Whether any part from number `from` on, before number `to`, is marked.
fn any_marked(r: Record<'_>, from: Number, to: Number) -> bool
    requires order { from ≤ to }
    requires inside { marks_place + to ≤ length r.bytes.now }
    ensures { result ≡ any is_mark (bytes_at r.entry.bytes.now (marks_place + from) (to - from)) }
{
    let marks = &r.bytes[MARKS_PLACE + usize::from(from)..MARKS_PLACE + usize::from(to)];
    marks.iter().any(|mark| *mark != UNMARKED)
}

// How many children of part p are marked. Where a child ends the next one begins, so that what is
// inside a child is not looked at.
fn marked_children(t: Table<'_>, r: Record<'_>, p: Number) -> Number
    requires { p < parts t.bytes.now }
    ensures { result ≡ marked_children t.entry.bytes.now p (suc p) (inner_marks t.entry.bytes.now r.entry.bytes.now p) }
{
    let end = t.end(p);
    let mut n: Number = 0;
    let mut q = p + 1;
    while q < end {
        n += Number::from(r.is_marked(q));
        q = t.end(q);
    }
    n
}

// Whether a marked part of a kind may have n marked children.
#[tactic(auto, unfolding(meaning::specs::Record::children_allowed))]
fn children_allowed(phase: u8, kind: Kind, n: Number) -> bool
    ensures { result ≡ children_allowed phase kind n }
{
    match kind {
        Kind::Seq | Kind::Repeat => n == 1,
        Kind::Par => 1 <= n,
        Kind::Maintain => (n == 1) | (phase == OFFERED),
        Kind::Choice => n <= 1,
        Kind::Unknown | Kind::Goal | Kind::Start | Kind::Wait => true,
    }
}

// Whether the marks inside part p are allowed beside its own.
fn part_allowed(t: Table<'_>, r: Record<'_>, phase: u8, p: Number) -> bool
    requires { p < parts t.bytes.now }
    ensures { result ≡ part_allowed t.entry.bytes.now phase p (get_or (marks_in t.entry.bytes.now r.entry.bytes.now) p 0) (drop (suc p) (marks_in t.entry.bytes.now r.entry.bytes.now)) }
{
    if r.is_marked(p) {
        // Counted before the kind is asked for: to keep the kind while counting takes five instructions more.
        let n = marked_children(t, r, p);
        children_allowed(phase, t.kind(p), n)
    } else {
        !any_marked(r, p + 1, t.end(p))
    }
}

// The part to look at after part p, which is allowed. Nothing inside an unmarked part is marked then,
// so that nothing is asked of what is inside.
#[tactic(auto, unfolding(crate::specs::Inner::part_after))]
fn part_after(t: Table<'_>, r: Record<'_>, p: Number) -> Number
    requires { p < parts t.bytes.now }
    ensures { result ≡ part_after t.entry.bytes.now p (get_or r.entry.bytes.now (marks_place + p) 0) }
{
    if r.is_marked(p) { p + 1 } else { t.end(p) }
}

// Whether the marks inside each part are allowed beside its own.
pub fn parts_allowed(t: Table<'_>, r: Record<'_>) -> bool
    ensures { result ≡ parts_allowed t.entry.bytes.now (phase_of r.entry.bytes.now) 0 (marks_in t.entry.bytes.now r.entry.bytes.now) }
{
    let current = phase(r.bytes);
    let n = t.parts();
    let mut p: Number = 0;
    while p < n {
        if !part_allowed(t, r, current, p) {
            return false;
        }
        p = part_after(t, r, p);
    }
    true
}

// No mark is set once the run is over, and until then the root is marked.
#[tactic(auto, unfolding(meaning::specs::Record::root_allowed))]
pub fn root_allowed(t: Table<'_>, r: Record<'_>) -> bool
    ensures { result ≡ root_allowed (phase_of r.entry.bytes.now) (marks_in t.entry.bytes.now r.entry.bytes.now) }
{
    if phase(r.bytes) == FINISHED {
        return !any_marked(r, 0, t.parts());
    }
    r.is_marked(0)
}
