// All records of a file, in turn.
ghost use Rattle.std.specs.Prelude.{ℕ, suc, ◌-◌, ◌^◌, ◌≡◌};
ghost use Rattle.session.specs.File.{Progress, progress};
ghost use Rattle.session.specs.Reading.{Ran};
ghost use Rattle.session.specs.Records.{lent};
ghost use Rattle.panel.specs.Reading.{InPart, Done, Fresh, RunsFile};

use crate::reading::Input;
use session::LentStep;
use std::io::Read;

// Reads on, and carries the next record out.
fn turn(run: &mut LentStep<'_, '_, '_, impl Print>, input: &mut Input<'_, impl Read>)
    requires { InPart run.old.step.at input.old }
    ensures in_part { InPart run.new.step.at input.new }
    ensures done { (start : Progress) (k : ℕ)
        → Done run.old.font.now start k run.old input.old
        → Done run.old.font.now start (suc k) run.new input.new }
    ensures lent { lent run.new ≡ lent run.old }
{
    run.step.at = input.read_on(run.step.at);
    run.next(input.at_hand());
}

// All records; a closed output stops the file. The count of turns, which no run uses up, is there so that the loop is seen to end.
fn run_records(run: &mut LentStep<'_, '_, '_, impl Print>, input: &mut Input<'_, impl Read>)
    requires { Fresh run.old input.old }
    ensures ran { Ran run.old.font.now (progress run.old) (2 ^ 64 - 1) (progress run.new)
        run.new.step.session.output.open }
    ensures lent { lent run.new ≡ lent run.old }
{
    for _ in 0..u64::MAX {
        turn(run, input);
        if !(run.step.more && run.step.session.output.open) {
            break;
        }
    }
}

// All records, and the line that ends the output.
pub fn run_file(run: &mut LentStep<'_, '_, '_, impl Print>, input: &mut Input<'_, impl Read>)
    requires { Fresh run.old input.old }
    ensures { RunsFile run.old run.new }
{
    run_records(run, input);
    run.finish();
}
