// The walk over the parts of a file: down into a part, over its children, which it takes from the walker,
// and up out of it. It finds whether the parts are a tree that is allowed, keeps its depth, and counts its
// steps. The contracts say of each step which one of the walk it is, so that no part is entered twice.
ghost use Rattle.std.specs.Prelude.{◌≡◌, ◌+◌, ◌-◌, ◌*◌, ◌<◌, ◌≤◌, length};
ghost use Rattle.meaning.specs.declared.Form.TheVariants.{File};
ghost use Rattle.meaning.specs.Sizes.{max_depth, number_limit, length_of};
ghost use Rattle.meaning.specs.Program.{parts};
ghost use Rattle.program_part.specs.Readable.{Readable, sizes_in};
ghost use Rattle.program_walk.specs.declared.walk.Way.TheVariants.{Down};
ghost use Rattle.program_walk.specs.Walk.{any_end, parts_end};
ghost use Rattle.program_walk.specs.Steps.{children_at, walk_steps, Next, taking, row_steps, AtRoot};

use crate::walker::entry_at;
use meaning::sizes::MAX_DEPTH;
use meaning::{Form, Number};
use program_part::kinds::children_of;
use program_part::layout::{Sizes, read_sizes};

// The way of the walk at a part: down into it, up out of it, or both at once where it has no children.
#[derive(Clone, Copy)]
pub enum Way {
    Down,
    Up,
    Through,
}

// How many children part q has, which stands at this depth. It is looked at only where the walk goes down
// into it next, after so many steps.
fn look(s: &[u8], sizes: Sizes, q: Number, depth: u8, taken: u32) -> Option<Number>
    requires readable { Readable File s.now q }
    requires sizes_value { sizes ≡ sizes_in s.now }
    requires next { Next s.now taken (taking Down q depth) }
    ensures { result ≡ children_at s.now q }
{
    let part = entry_at(s, Form::File, q);
    children_of(sizes.variables, sizes.clocks, part)
}

// Takes the walk's next step, or two, at part q, which stands at this depth.
fn take(s: &[u8], way: Way, q: Number, depth: u8, steps: &mut u32)
    requires next { Next s.now steps.old (taking way q depth) }
    requires steps_bound { steps.old < 2 * number_limit }
    ensures { steps.new ≡ steps.old + length (taking way q depth) }
{
    match way {
        Way::Down | Way::Up => *steps += 1,
        Way::Through => *steps += 2,
    }
}

// The end of `count` parts in a row, of which part p is the first, and which are the children of a part at
// depth `outer`. It is 0 if there are too few parts, if a part is not allowed, or if one is too deep: then
// the walk stops. The function calls itself for the children of a part: fewer parts remain at each call, and
// the calls are at most as deep as the depth that is allowed. One number that passes in a register, and no
// option, is what `parts_end` of the definitions gives, of which `whole` and `whole_reached` speak.
pub(crate) fn parts_end(s: &[u8], p: Number, count: Number, outer: u8, steps: &mut u32) -> Number
    requires s_in_bounds { length_of File (parts s.now) ≤ length s.now }
    requires outer_lt_max_depth { outer < max_depth }
    requires next { Next s.now steps.old (row_steps s.now outer count p) }
    ensures value { result ≡ parts_end File s.now any_end (max_depth - outer) count p }
    ensures steps_after { steps.new ≡ steps.old + length (row_steps s.now outer count p) }
{
    let sizes = read_sizes(s);
    let mut depth = outer;
    let mut q = p;
    for _ in 0..count {
        if sizes.parts <= q {
            return 0;
        }
        depth += 1;
        let Some(inside) = look(s, sizes, q, depth, *steps) else {
            take(s, Way::Down, q, depth, steps);
            return 0;
        };
        let mut e = q + 1;
        if inside == 0 {
            take(s, Way::Through, q, depth, steps);
        } else {
            take(s, Way::Down, q, depth, steps);
            if depth == MAX_DEPTH {
                return 0;
            }
            e = parts_end(s, q + 1, inside, depth, steps);
            if e == 0 {
                return 0;
            }
            take(s, Way::Up, q, depth, steps);
        }
        depth -= 1;
        q = e;
    }
    q
}

// Where a walk over a whole file ended, and how many steps it took.
#[derive(Clone, Copy)]
pub struct Walked {
    pub end: Number,
    pub steps: u32,
}

// The walk from the root on.
pub(crate) fn walk(s: &[u8], p: Number) -> Walked
    requires { AtRoot s.now p }
    ensures end_value { result.end ≡ parts_end File s.now any_end max_depth 1 p }
    ensures steps_value { result.steps ≡ length (walk_steps s.now) }
    ensures steps_bound { result.steps ≤ 2 * parts s.now }
{
    let mut steps: u32 = 0;
    let end = parts_end(s, p, 1, 0, &mut steps);
    Walked { end, steps }
}

// Where the root ends.
pub(crate) fn part_end(s: &[u8], p: Number) -> Number
    requires { AtRoot s.now p }
    ensures { result ≡ parts_end File s.now any_end max_depth 1 p }
{
    walk(s, p).end
}
