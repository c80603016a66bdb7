// Signed texts, and chains of them.
ghost use Rattle.satp_examples.specs.Signatures.{ShapesOfSignatures, ChainsOfTexts};

/// What a signed text is made of, and the texts of a chain of two.
pub fn law_signed_texts()
    ensures signatures { ShapesOfSignatures }
    ensures chains { ChainsOfTexts }
{}
