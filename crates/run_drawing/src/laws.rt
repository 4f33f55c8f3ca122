//! Laws of pictures, each the contract of a function that does nothing.

ghost use Rattle.run_drawing.specs.Laws.{EndingsAreSo};

/// By what has happened in the run of a plan up to a tick, an order or a within that is said to be met is kept from then
/// on, and one that is said to be broken never is.
pub fn endings_are_so()
    ensures { EndingsAreSo }
{}
