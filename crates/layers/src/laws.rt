//! What the layers promise over any policy.
ghost use Rattle.layers.specs.LayerLaws.{LevelLaw, OwnerLaw};

/// Which operations a layer leaves, in plain words, over any policy.
pub fn layer_laws_stand()
    ensures levels { LevelLaw }
    ensures owners { OwnerLaw }
{}
