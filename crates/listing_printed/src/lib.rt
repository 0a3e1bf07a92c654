// What the listing program prints (document 01, "Wet slips"), put into lent room: the first line of its answer, and each
// filled text. The program reads a line and writes these, one at a time, so that its memory does not grow with the listing.
#![tactic(auto)]

ghost use Rattle.std.specs.Prelude.{◌≡◌, length};
ghost use Rattle.fillings.specs.Answers.{left_by_listing};
ghost use Rattle.printed.specs.Printed.{Puts};
ghost use Rattle.listing_printed.specs.Listing.{first_line, line_in_room};
ghost use Rattle.listing_printed.specs.Mirror.{kept_listing, kept_fillings, kept_text};

use line::Seen;
use refusal::{Answer, Refusal};
use text::front;

// The text of a kept line that is filled: behind its first space, or all of it.
#[tactic(auto, unfolding(crate::specs::Mirror::kept_text))]
pub fn text<'a>(seen: Seen, head: &'a [u8], tail: &'a [u8]) -> &'a [u8]
    ensures { result.now ≡ kept_text seen head.now tail.now }
{
    let before = seen.head;
    let behind = seen.tail;
    if seen.spaced {
        return front(tail, behind);
    }
    front(head, before)
}

// The answer to a kept line, the numbers of its fillings at the front of `numbers`: no line feed is 1.
#[tactic(auto, unfolding(crate::specs::Mirror::kept_listing, crate::specs::Mirror::kept_fillings))]
pub fn list(seen: Seen, head: &[u8], tail: &[u8], numbers: &mut [u16]) -> Result<usize, Refusal>
    ensures { (result ≡ kept_listing seen head.now tail.now (length numbers.old)) × (numbers.new ≡ left_by_listing result (kept_fillings seen head.now tail.now) numbers.old) }
{
    let before = seen.head;
    let behind = seen.tail;
    let ended = seen.ended;
    if !ended {
        return Err(Refusal::Size(refusal::nowhere()));
    }
    if seen.spaced {
        return wet::list_reference(front(head, before), front(tail, behind), numbers);
    }
    wet::list_iban(front(head, before), numbers)
}

// The first line: the count, or `refused` and the number.
pub fn put_first(r: Result<usize, Refusal>, out: &mut [u8]) -> usize
    ensures { Puts (first_line r) 0 out.old result out.new }
{
    match r {
        Ok(n) => {
            let next = printed::put_number(out, 0, n as u64);
            printed::put(out, next, b" fillings\n")
        }
        Err(refused) => {
            let number = refusal::number(refused) as usize;
            let next = printed::put_counted(out, 0, b"refused ", number);
            printed::put(out, next, b"\n")
        }
    }
}

// The text filled by a number, and a line feed; nothing where there is no room for the text.
pub fn put_filled(text: &[u8], number: u16, out: &mut [u8]) -> usize
    ensures { Puts (line_in_room text.now number (length out.old)) 0 out.old result out.new }
{
    match filling::filled(text, number, out) {
        Ok(()) => printed::put(out, text.len(), b"\n"),
        Err(_) => 0,
    }
}
