//! The lines of the demo that are made of numbers.

ghost use Rattle.std.specs.Prelude.{◌≡◌, ◌≤◌, ◌++◌, OnOk, codes, string_bytes};
ghost use Rattle.demo_script.specs.DemoLines.{insert_line, line, middle_conditions, select_line, session_of};

use std::alloc::AllocError;

/// Makes it the line that inserts a row.
pub fn make_insert(text: &mut String, seed: u32, row: u32) -> Result<(), AllocError>
    requires seed { seed ≤ 1000000 }
    requires row { row ≤ 200000 }
    ensures { OnOk result (string_bytes text.new ≡ insert_line seed row) }
{
    text.clear();
    let session = row % 4;
    let value = (seed + 37 * row) % 1000;
    let end = row + 10;
    let high = row / 65536;
    let middle = row / 256 % 256;
    let low = row % 256;
    write!(
        text,
        "d{session} insert d {row} {value} [{row},{end}) 10.{high}.{middle}.{low}"
    )?;
    Ok(())
}

/// Makes it the line by which the session that puts a row finishes its insert.
pub fn make_finish(text: &mut String, row: u32) -> Result<(), AllocError>
    ensures { OnOk result (string_bytes text.new ≡ line (session_of row) (codes "finish")) }
{
    text.clear();
    let own = row % 4;
    write!(text, "d{own} finish")?;
    Ok(())
}

/// Makes it the select of the ten keys from the middle of the rows on.
pub fn make_select(text: &mut String, rows: u32) -> Result<(), AllocError>
    requires { rows ≤ 200000 }
    ensures { OnOk result (string_bytes text.new ≡ select_line (middle_conditions rows)) }
{
    text.clear();
    let middle = rows / 2;
    let end = middle + 10;
    write!(text, "d0 select d where k >= {middle} and k < {end}")?;
    Ok(())
}

/// Makes it the explain of that select.
pub fn make_explain(text: &mut String, rows: u32) -> Result<(), AllocError>
    requires { rows ≤ 200000 }
    ensures { OnOk result (string_bytes text.new ≡ codes "d0 explain d where " ++ middle_conditions rows) }
{
    text.clear();
    let middle = rows / 2;
    let end = middle + 10;
    write!(text, "d0 explain d where k >= {middle} and k < {end}")?;
    Ok(())
}
