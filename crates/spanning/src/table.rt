//! The bottlenecks of a grid's terminals.

ghost use Rattle.std.specs.Prelude.{◌≡◌, ◌<◌, ◌≤◌, ◌+◌, ◌*◌, ◌^◌, length, IfOk, vec_len};
ghost use Rattle.spanning.specs.Bottleneck.{IsBottleneck, AreBottlenecks};
ghost use Rattle.spanning.specs.Relaxing.{AreDistances, RelaxesRows, RelaxesRow};

use hanan_grid::Grid;
use points_in::Points;
use std::alloc::{AllocError, Global};
use std::marker::Model;

/// The bottleneck of each two terminals. Contracts see the list of the terminals, since the bottlenecks are a
/// function of it.
#[derive(Drop)]
pub struct Table {
    points: Points,
    // By row and then by column.
    lengths: Vec<u64>,
}

impl Model for Table {
    ghost use Rattle.std.specs.Prelude.{List};
    ghost use Rattle.points_in.specs.declared.point.Point.{Point};
    ghost use Rattle.spanning.specs.Bottleneck.{AreBottlenecks};

    ghost Value = { List Point };

    ghost view = { λ t. t.points };

    ghost invariant = { λ t. AreBottlenecks t.points t.lengths.items };
}

impl Table {
    /// The bottleneck of the terminals at two places of the list, counted from 0: the least length such that
    /// a chain of terminals with rectilinear hops of at most that length leads from one to the other. It is 0
    /// for a terminal and itself. It takes no memory.
    pub fn between(&self, i: usize, j: usize) -> u64
        requires first { i < length self.now }
        requires second { j < length self.now }
        ensures { IsBottleneck self.now i j result }
    {
        self.lengths[i * self.points.len() + j]
    }
}

/// The bottlenecks of the grid's terminals. An `Err` is want of memory.
pub fn bottlenecks(alloc: Global, grid: &Grid) -> Result<Table, AllocError>
    ensures { IfOk result (λ table. table ≡ grid.now) }
{
    let points = grid.points().copy()?;
    let mut lengths = distances(alloc, grid)?;
    relax_by_all(&points, &mut lengths);
    Ok(Table { points, lengths })
}

// The distances of the grid's terminals, by row and then by column. An `Err` is want of memory.
fn distances(alloc: Global, grid: &Grid) -> Result<Vec<u64>, AllocError>
    ensures { IfOk result (λ lengths. AreDistances grid.now lengths.items) }
{
    let n = grid.points().len();
    let mut lengths = Vec::with_capacity(alloc, n * n)?;
    for place in 0..n * n {
        lengths.push_reserved(grid.distance(place / n, place % n));
    }
    Ok(lengths)
}

// Makes distances into bottlenecks, by way of one terminal after another.
fn relax_by_all(points: &Points, lengths: &mut [u64])
    requires { AreDistances points.now lengths.old }
    ensures { AreBottlenecks points.now lengths.new }
{
    let n = points.len();
    for middle in 0..n {
        relax(lengths, n, middle);
    }
}

// Makes the lengths of a table of `n` rows shorter by way of one more terminal.
fn relax(lengths: &mut [u64], n: usize, middle: usize)
    requires few { n ≤ 50 }
    requires size { length lengths.old ≡ n * n }
    requires middle { middle < n }
    ensures { RelaxesRows n middle n lengths.old lengths.new }
{
    for row in 0..n {
        relax_row(lengths, n, middle, row);
    }
}

// Makes the lengths of one row shorter by way of one more terminal.
fn relax_row(lengths: &mut [u64], n: usize, middle: usize, row: usize)
    requires few { n ≤ 50 }
    requires size { length lengths.old ≡ n * n }
    requires middle { middle < n }
    requires row { row < n }
    ensures { RelaxesRow n middle row n lengths.old lengths.new }
{
    let to_middle = lengths[row * n + middle];
    for column in 0..n {
        let through = to_middle.max(lengths[middle * n + column]);
        let place = row * n + column;
        lengths[place] = lengths[place].min(through);
    }
}
