// The goal bytes, in one pass over the parts.
ghost use Rattle.std.specs.Prelude.{◌≡◌, ◌+◌, ◌<◌, ◌≤◌, length, get_or};
ghost use Rattle.std.proofs.lemmas.List.Edits.{sets};
ghost use Rattle.meaning.specs.Sizes.{max_value};
ghost use Rattle.meaning.specs.Kinds.{value};
ghost use Rattle.meaning.specs.Program.{parts, variables};
ghost use Rattle.meaning.specs.Record.{marks_place, marks_in};
ghost use Rattle.meaning.specs.Cycle.{leaves_from, goal_bytes};
ghost use Rattle.run_goals.specs.Merged.{merged_byte, goal_merged, goals_merged, leaf_at};

use base::fill;
use meaning::kinds::Kind;
use meaning::sizes::{CONTESTED, NO_GOAL};
use meaning::{Number, Operand};
use program_part::kinds::value;
use program_table::table::Table;
use run_record::fields::Record;

// Goal byte b merged with the value x of one more GOAL. A contested byte stays so, since no
// value is that large.
#[tactic(auto, unfolding(crate::specs::Merged::merged_byte))]
fn merged_byte(b: u8, x: u8) -> u8
    ensures { result ≡ merged_byte b x }
{
    match b {
        NO_GOAL => x,
        _ if b == x => b,
        _ => CONTESTED,
    }
}

// Merges the value of one GOAL into the goal bytes.
#[tactic(auto, unfolding(crate::specs::Merged::goal_merged))]
fn merge_goal(g: &mut [u8], o: Operand)
    requires o_bound { value o ≤ max_value }
    requires b1_in_bounds { o.b1 < length g.old }
    ensures { g.new ≡ goal_merged g.old o }
{
    let v = usize::from(o.b1);
    g[v] = merged_byte(g[v], value(o) as u8);
}

// Merges the value of part p where it is a marked GOAL. The kind is asked for first, which takes less where parts
// have another.
fn merge_part(t: Table<'_>, r: Record<'_>, g: &mut [u8], p: Number)
    requires t_in_bounds { variables t.bytes.now ≤ length g.old }
    requires p_bound { p < parts t.bytes.now }
    ensures { g.new ≡ goals_merged g.old (leaf_at t.entry.bytes.now p (get_or r.entry.bytes.now (marks_place + p) 0)) }
{
    if t.kind(p) == Kind::Goal && r.is_marked(p) {
        merge_goal(g, t.entry(p).operand);
    }
}

// Merges the values of all marked GOALs.
fn merge_all(t: Table<'_>, r: Record<'_>, g: &mut [u8])
    requires { variables t.bytes.now ≤ length g.old }
    ensures { g.new ≡ goals_merged g.old (leaves_from t.entry.bytes.now 0 (marks_in t.entry.bytes.now r.entry.bytes.now)) }
{
    for p in 0..t.parts() {
        merge_part(t, r, g, p);
    }
}

// Writes the goal bytes of the program's variables.
pub fn write_goals(t: Table<'_>, r: Record<'_>, g: &mut [u8])
    requires { variables t.bytes.now ≤ length g.old }
    ensures { g.new ≡ sets g.old 0 (goal_bytes (variables t.entry.bytes.now) (leaves_from t.entry.bytes.now 0 (marks_in t.entry.bytes.now r.entry.bytes.now))) }
{
    fill(g, 0, usize::from(t.variables()), NO_GOAL);
    merge_all(t, r, g);
}
