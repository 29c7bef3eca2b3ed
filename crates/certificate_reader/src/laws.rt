//! What the definitions say of the lines of a tree of cases.

ghost use Rattle.std.specs.Prelude.{◌≡◌, reverse};
ghost use Rattle.queue_certificates.specs.Cases.{Cases};
ghost use Rattle.certificate_reader.specs.CaseTexts.{cases_of, case_lines};

/// The lines of any tree of cases, a split before what its two sides have and a leaf before where it leads, are read as this tree.
/// The last one is read first. It does nothing.
#[tactic(auto, using(crate::proofs::Growing::cases_again))]
pub fn cases_are_read_again()
    ensures { (cases : Cases) → cases_of (reverse (case_lines cases)) ≡ cases }
{}
