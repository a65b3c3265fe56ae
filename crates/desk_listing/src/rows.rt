// The lines of a location table.
ghost use Rattle.std.specs.Prelude.{◌≡◌, ◌≤◌, length};
ghost use Rattle.meaning.specs.declared.Form.TheVariants.{Table};
ghost use Rattle.meaning.specs.Sizes.{length_of};
ghost use Rattle.meaning.specs.Program.{parts};
ghost use Rattle.program_part.specs.Readable.{Readable};
ghost use Rattle.desk_format.specs.Pages.{Adds};
ghost use Rattle.desk_listing.specs.Listing.{size_numbers, row_numbers, row_line, row_lines, table_text};

use crate::lines::write_line;
use desk_format::page::Page;
use meaning::{Form, Number};
use program_part::layout::{clocks, end_at, next_at, parent_at, parts, variables};
use program_walk::walker::entry_at;

// What the first line has.
fn size_numbers(table: &[u8]) -> [u64; 3]
    ensures { result ≡ size_numbers table.now }
{
    [
        u64::from(parts(table)),
        u64::from(variables(table)),
        u64::from(clocks(table)),
    ]
}

// What the line of row p has.
fn row_numbers(table: &[u8], p: Number) -> [u64; 9]
    requires { Readable Table table.now p }
    ensures { result ≡ row_numbers table.now p }
{
    let part = entry_at(table, Form::Table, p);
    let o = part.operand;
    let end = end_at(table, p);
    let parent = parent_at(table, p);
    let next = next_at(table, p);
    [
        u64::from(p),
        u64::from(part.kind),
        u64::from(end),
        u64::from(parent),
        u64::from(next),
        u64::from(o.b0),
        u64::from(o.b1),
        u64::from(o.b2),
        u64::from(o.b3),
    ]
}

// Writes the line of row p.
fn write_row_line(table: &[u8], p: Number, page: &mut Page<'_>)
    requires { Readable Table table.now p }
    ensures { Adds (row_line table.now p) page.old page.new }
{
    write_line(&row_numbers(table, p), page);
}

// Writes the line of every row.
fn write_row_lines(table: &[u8], page: &mut Page<'_>)
    requires { length_of Table (parts table.now) ≤ length table.now }
    ensures { Adds (row_lines table.now 0 (parts table.now)) page.old page.new }
{
    for p in 0..parts(table) {
        write_row_line(table, p, page);
    }
}

// Writes the sizes, then a line for each part.
pub(crate) fn write_table_text(table: &[u8], page: &mut Page<'_>)
    requires { length_of Table (parts table.now) ≤ length table.now }
    ensures { Adds (table_text table.now) page.old page.new }
{
    write_line(&size_numbers(table), page);
    write_row_lines(table, page);
}
