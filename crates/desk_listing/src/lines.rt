// Lines of numbers.
ghost use Rattle.std.specs.Prelude.{◌≡◌, [], ◌∷◌, ◌++◌};
ghost use Rattle.desk_format.specs.Decimal.{decimal};
ghost use Rattle.desk_format.specs.Pages.{Adds};
ghost use Rattle.desk_listing.specs.Listing.{separator, line};

use desk_format::page::Page;

// What stands after a number: a space where another follows, else a line feed.
fn separator(follows: bool) -> u8
    ensures { result ≡ separator follows }
{
    if follows { b' ' } else { b'\n' }
}

// Writes a number of a line and the separator after it.
fn write_item(n: u64, follows: bool, page: &mut Page<'_>)
    ensures { Adds (decimal n ++ (separator follows ∷ [])) page.old page.new }
{
    page.number(n);
    page.byte(separator(follows));
}

// Writes a line.
pub(crate) fn write_line(numbers: &[u64], page: &mut Page<'_>)
    ensures { Adds (line numbers.now) page.old page.new }
{
    for (k, n) in numbers.iter().enumerate() {
        write_item(*n, k + 1 < numbers.len(), page);
    }
}
