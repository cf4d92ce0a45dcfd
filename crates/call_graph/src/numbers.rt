ghost use Rattle.std.specs.Prelude.{◌≡◌, ◌↔◌, true};
ghost use Rattle.call_graph.specs.Numbers.{greatest_of, value};

/// The number at a place, and 0 where there is none.
pub fn value(numbers: &[u32], place: usize) -> u32
    ensures { result ≡ value numbers.now place }
{
    match numbers.get(place) {
        None => 0,
        Some(number) => *number,
    }
}

/// The greatest of a number and of those at these places.
pub fn greatest_of(numbers: &[u32], own: u32, places: &[usize]) -> u32
    ensures { result ≡ greatest_of numbers.now own places.now }
{
    let mut greatest = own;
    'places: for place in places {
        greatest = greatest.max(value(numbers, *place));
    }
    greatest
}

/// Whether numbers are equal.
pub fn same(a: &[u32], b: &[u32]) -> bool
    ensures { (result ≡ true) ↔ (a.now ≡ b.now) }
{
    a == b
}
