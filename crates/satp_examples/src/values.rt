// Values and their texts.
ghost use Rattle.satp_examples.specs.Values.{TextsOfValues, FormsOfTexts, FirstFaultsOfTexts};

/// The texts of values, which texts have their forms, and the first fault of one that hasn't.
pub fn law_values()
    ensures texts { TextsOfValues }
    ensures forms { FormsOfTexts }
    ensures faults { FirstFaultsOfTexts }
{}
