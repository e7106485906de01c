// Reads a map through the view: corners, rows, what is outside, and slices that are too short. Prints what it finds.
#![tactic(auto)]

use std::io;
use view::{RadonResponseView, read_place, read_row};

fn show_place(rt: &impl Print, p: Option<f32>) -> io::Result<()> {
    match p {
        Some(v) => println!(rt; "{v}"),
        None => rt.write_all(b"outside\n"),
    }
}

// Rows of a map of three columns.
fn show_row(rt: &impl Print, row: &[f32]) -> io::Result<()> {
    match row {
        [] => rt.write_all(b"empty\n"),
        [a, b, c] => println!(rt; "{a}{b}{c}"),
        _ => rt.write_all(b"not a row\n"),
    }
}

fn main(rt: HostRuntime) -> io::Result<()> {
    let response: [f32; 6] = [1.0, 2.0, 3.0, 4.0, 5.0, 6.0];
    let image: [u8; 6] = [0; 6];
    let map = RadonResponseView::new(&response, &image, 3, 2);
    rt.write_all(b"corners\n")?;
    for (x, y) in [(0, 0), (2, 0), (0, 1), (2, 1)] {
        show_place(&rt, map.at(x, y))?;
    }
    rt.write_all(b"one past\n")?;
    for (x, y) in [(3, 0), (0, 2)] {
        show_place(&rt, map.at(x, y))?;
    }
    rt.write_all(b"rows\n")?;
    for y in 0..3 {
        show_row(&rt, map.row(y))?;
    }
    rt.write_all(b"too short\n")?;
    let five: [f32; 5] = [1.0, 2.0, 3.0, 4.0, 5.0];
    let pixels: [u8; 5] = [0; 5];
    show_place(&rt, read_place(&five, &image, 3, 2, 0, 0))?;
    show_place(&rt, read_place(&response, &pixels, 3, 2, 0, 0))?;
    show_row(&rt, read_row(&response, &pixels, 3, 2, 0))?;
    // 2^63 columns in two rows: the product is 0 in 64 bits
    show_place(
        &rt,
        read_place(&response, &image, 9223372036854775808, 2, 0, 0),
    )?;
    // no column: a row is there, and is empty
    show_row(&rt, read_row(&response, &image, 0, 2, 0))
}
