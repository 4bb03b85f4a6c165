//! What is proved of the references that stand for legs.
ghost use Rattle.dss1_meaning.specs.Dss1.{ReferencesNameLegs};

/// A reference means one leg, the same at both ends.
pub fn references_name_legs()
    ensures { ReferencesNameLegs }
{}
