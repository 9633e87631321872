//! Drawing.

ghost use Rattle.std.specs.Prelude.{◌≡◌, ◌<◌, ◌≤◌, IfOk};
ghost use Rattle.rand_pcg.specs.Pcg.{pcg32};
ghost use Rattle.drawn_points.specs.Drawing.{coordinate_of, point_of_words, drawn_points};

use crate::drawn::Drawn;
use points_in::Point;
use rand_core::utils::NextWord;
use rand_pcg::Lcg64Xsh32;
use std::alloc::{AllocError, Global};

/// The stream of the generator.
const STREAM: u64 = 54;

/// Draws `n` points, 1 to 50, from a seed: the words of the generator PCG-XSH-RR 64/32 (O'Neill 2014) of this seed
/// on stream 54 are x and y of the points in turn, each modulo 10000. An `Err` is want of memory.
pub fn draw_points(alloc: Global, n: u8, seed: u64) -> Result<Drawn, AllocError>
    requires some { 0 < n }
    requires few { n ≤ 50 }
    ensures { IfOk result (λ drawn. drawn ≡ drawn_points n seed) }
{
    let mut generator = Lcg64Xsh32::new(seed, STREAM);
    let mut items = Vec::with_capacity(alloc, usize::from(n))?;
    'points: for _ in 0..n {
        items.push_reserved(next_point(&mut generator));
    }
    Ok(Drawn { items })
}

// The point of the generator's next two words.
fn next_point(generator: &mut Lcg64Xsh32) -> Point
    ensures point { result
        ≡ point_of_words (pcg32 generator.old).0 (pcg32 (pcg32 generator.old).1).0 }
    ensures generator { generator.new ≡ (pcg32 (pcg32 generator.old).1).1 }
{
    let x = coordinate(generator.next_word());
    let y = coordinate(generator.next_word());
    Point { x, y }
}

// The coordinate of a word.
fn coordinate(word: u32) -> i64
    ensures { result ≡ coordinate_of word }
{
    i64::from(word % 10_000)
}
