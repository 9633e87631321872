//! Points, grids, codes and lists of trees as rows describe them.

use full_tree::{Places, Tree, TreeCode, TreeList, Way};
use hanan_grid::Grid;
use points_in::{Point, Points, read_points};
use row_tables::{Call, Fault, byte, number, signed};
use std::alloc::Global;

/// The points under the key `points`, which list points without a fault.
pub fn points(alloc: Global, call: &Call) -> Result<Points, Fault> {
    match read_points(alloc, call.bytes("points")?) {
        Ok(points) => Ok(points),
        Err(_) => Err(Fault::NotAllowed),
    }
}

/// The grid of the points under the key `points`, which is not too long.
pub fn grid(alloc: Global, call: &Call) -> Result<Grid, Fault> {
    match Grid::new(alloc, &points(alloc, call)?) {
        Ok(grid) => Ok(grid),
        Err(_) => Err(Fault::NotAllowed),
    }
}

/// The point of a line.
pub fn point(line: &str) -> Result<Point, Fault> {
    let [x, y] = coordinates::<2>(line)?;
    Ok(Point { x, y })
}

/// The coordinates of a line, which are `N`.
pub fn coordinates<const N: usize>(line: &str) -> Result<[i64; N], Fault> {
    let mut coordinates = [0; N];
    let mut words = line.split_whitespace();
    for place in 0..N {
        coordinates[place] = signed(words.next().ok_or(Fault::BadNumber)?)?;
    }
    if words.next().is_some() {
        return Err(Fault::BadNumber);
    }
    Ok(coordinates)
}

/// The trees under a key, a line each.
pub fn trees(alloc: Global, call: &Call, key: &str) -> Result<TreeList, Fault> {
    let lines = call.text(key)?;
    let mut trees = TreeList::empty(alloc);
    for line in lines.lines() {
        trees.push(tree(alloc, line)?)?;
    }
    Ok(trees)
}

/// The tree of a line: its length and its code, as in the file between the phases.
pub fn tree(alloc: Global, line: &str) -> Result<Tree, Fault> {
    let (length, rest) = line.split_once(' ').ok_or(Fault::NoArgument)?;
    Ok(Tree {
        length: number(length)?,
        code: code(alloc, rest)?,
    })
}

/// The code of a line, as in the file between the phases: `cross WEST SOUTH EAST NORTH` or
/// `long ROOT WAY TIP SIDE DROP ..`.
pub fn code(alloc: Global, line: &str) -> Result<TreeCode, Fault> {
    let words: Vec<&str> = line.split_whitespace().collect(alloc)?;
    code_of(alloc, &words)
}

// The code of words.
fn code_of(alloc: Global, words: &[&str]) -> Result<TreeCode, Fault> {
    match words {
        ["cross", ends @ ..] => cross(ends),
        ["long", words @ ..] => long(alloc, words),
        _ => Err(Fault::UnknownSubject),
    }
}

// The cross of words: its four ends.
fn cross(words: &[&str]) -> Result<TreeCode, Fault> {
    let [west, south, east, north] = words else {
        return Err(Fault::UnknownSubject);
    };
    Ok(TreeCode::Cross {
        west: byte(west)?,
        south: byte(south)?,
        east: byte(east)?,
        north: byte(north)?,
    })
}

// The long tree of words.
fn long(alloc: Global, words: &[&str]) -> Result<TreeCode, Fault> {
    let [root, toward, tip, side, drops @ ..] = words else {
        return Err(Fault::UnknownSubject);
    };
    Ok(TreeCode::Long {
        root: byte(root)?,
        toward: way(toward)?,
        side: side_place(side)?,
        tip: byte(tip)?,
        drops: places(alloc, drops)?,
    })
}

// The place at the side, or none where the word is a dash.
fn side_place(word: &str) -> Result<Option<u8>, Fault> {
    if word == "-" {
        return Ok(None);
    }
    Ok(Some(byte(word)?))
}

// The places of words, at most 8.
fn places(alloc: Global, words: &[&str]) -> Result<Places, Fault> {
    let mut places = Places::empty(alloc);
    for word in words {
        if places.len() == 8 {
            return Err(Fault::NotAllowed);
        }
        places.push(byte(word)?);
    }
    Ok(places)
}

// The direction of a word.
fn way(word: &str) -> Result<Way, Fault> {
    match word {
        "E" => Ok(Way::East),
        "N" => Ok(Way::North),
        "W" => Ok(Way::West),
        "S" => Ok(Way::South),
        _ => Err(Fault::BadNumber),
    }
}
