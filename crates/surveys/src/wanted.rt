//! Whether a machine stands where a test asks to come.

ghost use Rattle.std.specs.Prelude.{◌≡◌, ◌≤◌, ◌↔◌, IsTrue, length};
ghost use Rattle.step_machine.specs.Positions.{position_of};
ghost use Rattle.step_machine.specs.Standing.{ForEachHistory};
ghost use Rattle.surveys.specs.Wanted.{EndsAsWanted, IsWantedAt};

use litmus::{Test, Verdict};
use step_machine::MachineState;

/// Whether the machine is finished with an outcome that is looked for, whatever led to where it stands.
pub fn ends_as_wanted<const B: usize, const M: usize>(
    test: &Test,
    machine: &MachineState<B, M>,
) -> bool
    requires harts { length machine.now.harts ≡ length test.now.opening.harts }
    requires names { length test.now.names ≤ M }
    ensures history { ForEachHistory B M machine.now (λ t. IsTrue result ↔ EndsAsWanted M test.now t) }
    ensures position { IsTrue result ↔ IsWantedAt test.now (position_of machine.now) }
{
    match test.verdict(machine) {
        Verdict::Holds => test.by_exists(),
        Verdict::Fails => !test.by_exists(),
        Verdict::Unfinished => false,
    }
}
