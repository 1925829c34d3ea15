/// What a value tells is seen by comparing it with another: two are alike where they tell the same, other than counts
/// of faults and moments.
pub trait Kept {
    /// The two values are alike.
    ghost Alike: { Self → Self → Type 0 };

    ghost reflexive: { (a : Self) → Alike a a };

    ghost transitive: { (a b c : Self) → Alike a b → Alike b c → Alike a c };
}
