// The judge with a lent tally: the call of `desk_tally`, exported.

ghost use Rattle.std.specs.Prelude.{◌≡◌};
ghost use Rattle.desk_tally.specs.Tallied.{tallied_of};

use desk_record::Record;
use tally::Tally;

// One line: the record after it, and the lent tally brought up to date.
#[unsafe(no_mangle)]
pub extern "C" fn lanecockle_judge_step_tally(
    record: Record,
    line: &[u8],
    tally: &mut Tally,
) -> Record
    ensures { (result ≡ (tallied_of «record» line.now tally.old).«record»)
        × (tally.new ≡ (tallied_of «record» line.now tally.old).tally) }
{
    desk_tally::lanecockle_judge_step_tally(record, line, tally)
}
