//! Lists of numbers in which one is put in the place of another.

ghost use Rattle.std.specs.Prelude.{◌≡◌, ◌==◌, map, if◌then◌else◌};
ghost use Rattle.std.specs.List.{list_any};
ghost use Rattle.net_graph.specs.Distinct.{without};
ghost use Rattle.graph_reduce.specs.Rules.{moved};

// Puts one number in the place of another, wherever that stands.
fn replace_all(numbers: &mut [u32], from: u32, to: u32)
    ensures { numbers.new ≡ map (λ n. if n == from then to else n) numbers.old }
{
    for n in numbers.iter_mut() {
        if *n == from {
            *n = to;
        }
    }
}

/// Puts one number in the place of another, or, where it stands in the list already, takes the other out.
pub(crate) fn move_all(numbers: &mut Vec<u32>, from: u32, to: u32)
    ensures { numbers.new.items ≡ moved numbers.old.items from to }
{
    if stands_in(numbers, to) {
        take_out(numbers, from);
    } else {
        replace_all(numbers, from, to);
    }
}

/// Whether the number stands in the list.
pub(crate) fn stands_in(numbers: &[u32], to: u32) -> bool
    ensures { result ≡ list_any (λ n. n == to) numbers.now }
{
    numbers.iter().any(|n| *n == to)
}

// Takes the number out of the list.
fn take_out(numbers: &mut Vec<u32>, from: u32)
    ensures { numbers.new.items ≡ without from numbers.old.items }
{
    numbers.retain(|n| *n != from);
}
