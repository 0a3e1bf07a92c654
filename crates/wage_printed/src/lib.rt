// What the program `wagefile` prints, put into lent room: one line, and the day that its input's first line tells.
//
// Document 01, "Wet slips".
#![tactic(auto)]

ghost use Rattle.std.specs.Prelude.{◌≡◌, Ok};
ghost use Rattle.printed.specs.Printed.{Puts};
ghost use Rattle.wage_printed.specs.FilePrinted.{day_told, ending_printed};

use classes::Class;
use condition::Counts;
use refusal::Refusal;

// The day that the first line tells; 0, which is no date, if it is not eight digits and a line feed.
#[tactic(auto, unfolding(crate::specs::FilePrinted::day_told))]
pub fn day(s: &[u8]) -> u64
    ensures { result ≡ day_told s.now }
{
    if s.len() != 9 {
        return 0;
    }
    if s[8] != 10 {
        return 0;
    }
    if !text::all_of(Class::Digits, &s[0..8]) {
        return 0;
    }
    sums::number(&s[0..8])
}

// What is printed of an accepted file.
fn put_counts(c: Counts, out: &mut [u8]) -> usize
    ensures { Puts (ending_printed (Ok c)) 0 out.old result out.new }
{
    let lines = c.lines;
    let tally = c.tally;
    let groups = tally.groups;
    let orders = tally.orders;
    let mut next = printed::put_counted(out, 0, b"accepted ", lines);
    next = printed::put_counted(out, next, b" lines ", groups);
    next = printed::put_counted(out, next, b" groups ", orders);
    printed::put(out, next, b" orders\n")
}

// What is printed of a file's answer; the answer is how many bytes it has, as far as there is room.
#[tactic(auto, unfolding(crate::specs::FilePrinted::ending_printed))]
pub fn print(e: Result<Counts, Refusal>, out: &mut [u8]) -> usize
    ensures { Puts (ending_printed e) 0 out.old result out.new }
{
    match e {
        Ok(c) => put_counts(c, out),
        Err(r) => printed::put_refused(out, 0, r),
    }
}
