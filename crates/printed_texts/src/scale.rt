//! How the plane lies on the page of a plot.

ghost use Rattle.std.specs.Prelude.{◌≡◌, ◌≤◌, ◌<◌, ◌^◌, length};
ghost use Rattle.hanan_grid.specs.Grid.{xs_of, ys_of};
ghost use Rattle.hanan_grid.specs.Names.{crossing};
ghost use Rattle.printed_texts.specs.Plot.{scale_of, along, on_page};

use hanan_grid::{Grid, Place};
use points_in::Point;

/// A point of the page, in units of 1/72 inch from the lower left corner.
#[derive(Clone, Copy)]
pub(crate) struct PagePoint {
    pub x: u128,
    pub y: u128,
}

/// How the plane lies on the page.
#[derive(Clone, Copy)]
pub(crate) struct Scale {
    /// The least x, which lies at 36.
    pub left: i64,
    /// The least y, which lies at 36.
    pub low: i64,
    /// How far it is in the plane over 540 units of the page. 0 stands for 1.
    pub span: u64,
}

impl Scale {
    /// The scale of a grid: its least coordinates lie at 36, and the greater of its width and its height is 540 long.
    pub fn of(grid: &Grid) -> Scale
        ensures { result ≡ scale_of grid.now }
    {
        let column = grid.columns() - 1;
        let row = grid.rows() - 1;
        let low = Scale::corner(grid, Place { column: 0, row: 0 });
        let high = Scale::corner(grid, Place { column, row });
        let width = high.x.abs_diff(low.x);
        let height = high.y.abs_diff(low.y);
        Scale {
            left: low.x,
            low: low.y,
            span: width.max(height),
        }
    }

    // The point of a crossing.
    fn corner(grid: &Grid, place: Place) -> Point
        requires column { place.column < length (xs_of grid.now) }
        requires row { place.row < length (ys_of grid.now) }
        ensures { result ≡ crossing (xs_of grid.now) (ys_of grid.now) place.column place.row }
    {
        grid.vertex_point(grid.vertex(place))
    }

    /// Where a point lies on the page.
    pub fn on_page(&self, point: &Point) -> PagePoint
        ensures at { result ≡ on_page self.now point.now }
        ensures right { 36 ≤ result.x }
        ensures above { 36 ≤ result.y }
        ensures near { result.x < 2 ^ 80 }
        ensures close { result.y < 2 ^ 80 }
    {
        PagePoint {
            x: self.along(self.left, point.x),
            y: self.along(self.low, point.y),
        }
    }

    // Where a coordinate lies along a side of the page, on which the least one lies at 36.
    fn along(&self, least: i64, coordinate: i64) -> u128
        ensures at { result ≡ along self.now.span least coordinate }
        ensures margin { 36 ≤ result }
        ensures near { result < 2 ^ 80 }
    {
        36 + u128::from(coordinate.abs_diff(least)) * 540 / u128::from(self.span.max(1))
    }
}
