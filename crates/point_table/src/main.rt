// Writes the table of points, computed from G alone, an entry a line: window, digit, x, y.
#![tactic(auto)]

ghost use Rattle.std.specs.Prelude.{◌<◌};
ghost use Rattle.circle.specs.Table.{windows};

use circle::point::CirclePoint;
use circle::point_table;
use circle::point_table::WINDOWS;
use circle::point_table::inner::PointTable;
use fields::m31::M31;
use std::io;

fn print_entry(
    rt: &HostRuntime,
    window: usize,
    digit: usize,
    p: CirclePoint<M31>,
) -> io::Result<()> {
    println!(rt; "{window} {digit} {} {}", p.x.0, p.y.0)
}

fn print_window(rt: &HostRuntime, table: PointTable, window: usize) -> io::Result<()>
    requires { window < windows }
{
    let digits = point_table::digits_of(window);
    for digit in 0..digits {
        print_entry(rt, window, digit, table.entry(window, digit))?;
    }
    Ok(())
}

// It stops at the first write that fails, so that what is written is the table up to there.
fn main(rt: HostRuntime) -> io::Result<()> {
    let words = point_table::compute();
    let table = PointTable { words: &words };
    for window in 0..WINDOWS {
        print_window(&rt, table, window)?;
    }
    Ok(())
}
