//! The text that the run of the sample prints.
ghost use Rattle.std.specs.Prelude.{◌≡◌, ◌<◌, ◌++◌, ℤ, decimal, length, slice_get, Some, IfOk, OnOk};
ghost use Rattle.sq_sample.specs.Printed.{counts, sample_text, ticks_line};
ghost use Rattle.sq_sample.specs.Running.{number_line};

use crate::counted::number_at;
use itoa::Buffer;
use sq_value::NoMemory;
use std::alloc::Global;

/// The text after so many ticks for a seed, from how many rows each view lists.
pub fn lines(alloc: Global, seed: u32, ticks: u32, numbers: &[i128]) -> Result<Vec<u8>, NoMemory>
    requires { numbers.now ≡ counts seed ticks }
    ensures { IfOk result (λ text. text.items ≡ sample_text seed ticks) }
{
    let mut out = Vec::new(alloc);
    push_ticks(&mut out, seed, ticks)?;
    push_view(&mut out, b"\"totals\"", numbers, 0)?;
    push_view(&mut out, b"\"by_key\"", numbers, 1)?;
    push_view(&mut out, b"\"by_group\"", numbers, 2)?;
    push_view(&mut out, b"\"unused\"", numbers, 3)?;
    push_view(&mut out, b"\"seen\"", numbers, 4)?;
    Ok(out)
}

// Appends the line that tells how many ticks there were.
fn push_ticks(out: &mut Vec<u8>, seed: u32, ticks: u32) -> Result<(), NoMemory>
    ensures { OnOk result (out.new.items ≡ out.old.items ++ ticks_line seed ticks) }
{
    push_number(out, b"{\"sample\":", seed)?;
    push_number(out, b",\"ticks\":", ticks)?;
    push_number(out, b",\"accepted\":", ticks)?;
    out.extend_from_slice(b"}\n")?;
    Ok(())
}

// Appends some bytes and then a number.
fn push_number(out: &mut Vec<u8>, head: &[u8], number: u32) -> Result<(), NoMemory>
    ensures { OnOk result (out.new.items ≡ out.old.items ++ (head.now ++ decimal number)) }
{
    out.extend_from_slice(head)?;
    out.extend_from_slice(Buffer::new().format(number).as_bytes())?;
    Ok(())
}

// Appends the line of a view, with the number in its place. The name is in quotes.
fn push_view(out: &mut Vec<u8>, name: &[u8], numbers: &[i128], i: usize) -> Result<(), NoMemory>
    requires { i < length numbers.now }
    ensures { (n : ℤ) → slice_get numbers.now i ≡ Some n → OnOk result (out.new.items ≡ out.old.items ++ number_line name.now n) }
{
    push_line(out, name, number_at(numbers, i))
}

// Appends the line of a view that lists so many rows.
fn push_line(out: &mut Vec<u8>, name: &[u8], number: i128) -> Result<(), NoMemory>
    ensures { OnOk result (out.new.items ≡ out.old.items ++ number_line name.now number) }
{
    out.extend_from_slice(b"{\"view\":")?;
    out.extend_from_slice(name)?;
    out.extend_from_slice(b",\"rows\":")?;
    out.extend_from_slice(Buffer::new().format(number).as_bytes())?;
    out.extend_from_slice(b"}\n")?;
    Ok(())
}
