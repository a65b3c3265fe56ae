// Makes the program file of the parts in a buffer, where there is room for it.
ghost use Rattle.std.specs.Prelude.{◌≡◌, ◌+◌, ◌*◌, ◌≤◌, length};
ghost use Rattle.std.proofs.lemmas.List.Edits.{sets};
ghost use Rattle.base.specs.Lists.{flat};
ghost use Rattle.meaning.specs.declared.Form.TheVariants.{File};
ghost use Rattle.meaning.specs.Sizes.{header_length, length_of};
ghost use Rattle.meaning.specs.Program.{size_bytes, kind_byte, entry_operand};
ghost use Rattle.text_parts.specs.Stored.{part_length};
ghost use Rattle.text_assemble.specs.Packing.{packed_entries, packed_file};

use base::{copy_inside, store};
use meaning::sizes::{CLOCKS_PLACE, HEADER, KIND, OPERAND, VARIABLES_PLACE};
use text_parts::PART;

fn pack_sizes(n: u8, v: u8, k: u8, file: &mut [u8])
    requires { header_length ≤ length file.old }
    ensures { file.new ≡ sets file.old 0 (size_bytes n v k) }
{
    store(file, 0, n);
    store(file, VARIABLES_PLACE, v);
    store(file, CLOCKS_PLACE, k);
}

fn pack_kinds(parts: &[u8], n: u8, file: &mut [u8])
    requires n_in_bounds { part_length * n ≤ length parts.now }
    requires n_in_bounds_2 { length_of File n ≤ length file.old }
    ensures { file.new ≡ sets file.old header_length (flat kind_byte (packed_entries parts.now n)) }
{
    // By the part's number, which gives the places in both buffers.
    for p in 0..usize::from(n) {
        store(file, HEADER + p, parts[PART * p]);
    }
}

fn pack_operands(parts: &[u8], n: u8, file: &mut [u8])
    requires n_in_bounds { part_length * n ≤ length parts.now }
    requires n_in_bounds_2 { length_of File n ≤ length file.old }
    ensures { file.new ≡ sets file.old (header_length + n) (flat entry_operand (packed_entries parts.now n)) }
{
    // By the part's number, as above.
    for p in 0..usize::from(n) {
        copy_inside(
            parts,
            PART * p + KIND,
            file,
            HEADER + usize::from(n) + OPERAND * p,
            OPERAND,
        );
    }
}

// Writes the sizes, the kinds and the operands.
pub(crate) fn pack(parts: &[u8], n: u8, v: u8, k: u8, file: &mut [u8])
    requires n_in_bounds { part_length * n ≤ length parts.now }
    requires n_in_bounds_2 { length_of File n ≤ length file.old }
    ensures { file.new ≡ sets file.old 0 (packed_file parts.now n v k) }
{
    pack_sizes(n, v, k, file);
    pack_kinds(parts, n, file);
    pack_operands(parts, n, file);
}
