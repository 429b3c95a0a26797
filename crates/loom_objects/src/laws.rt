//! Laws of the order of accesses. A law is the contract of a function that does nothing; it is stated in `specs/Dependence/Laws`.

ghost use Rattle.loom_objects.specs.Dependence.Laws.{VectorLaw};

/// Vectors tell the order: a thread's vector counts the raising points that reach the thread's point, and the vector of an access
/// is inside it just where the access comes before that point (own).
pub fn vectors_tell_the_order()
    ensures { VectorLaw }
{}
