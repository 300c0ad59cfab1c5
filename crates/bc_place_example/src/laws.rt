//! A run that the laws on places speak of.
ghost use Rattle.bc_place_example.specs.Example.{HasExample};

/// A sound opening with a cache and a run from it exist, at whose end a seat has a place of two
/// sectors, in the first of which stands a value that it wrote.
pub fn example_exists()
    ensures { HasExample }
{}
