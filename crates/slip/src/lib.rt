// The slip, read.
//
// Document 01, "The slip's fourteen fields", with source 000; document 02, W1, with source 001: a slip in a currency. Every
// field is judged by one name, `slip_fields::judge_field`; reading goes from line feed to line feed and stops at the first
// refusal.
#![tactic(auto)]

ghost use Rattle.std.specs.Prelude.{◌≡◌, [], ◌+◌, ◌<◌, ◌^◌, length};
ghost use Rattle.verdict.specs.Verdict.{answer_at};
ghost use Rattle.text.specs.Split.{split};
ghost use Rattle.slip_fields.specs.Fields.{field_verdict};
ghost use Rattle.slip.specs.Slip.{slip_ends, fields_answer, slip_answer_in, slip_answer};

use classes::Class;
use refusal::{Answer, Refusal};
use slip_fields::Currency;

// Whether there are fourteen line feeds, one of them last.
fn ends_right(s: &[u8]) -> bool
    ensures { result ≡ slip_ends s.now }
{
    if text::count(10, s) != 14 {
        return false;
    }
    if s.len() == 0 {
        return false;
    }
    let last = s.len() - 1;
    s[last] == 10
}

// One field, which starts at a byte, after the field before it.
fn judge_one(currency: Currency, n: usize, start: usize, before: &[u8], s: &[u8]) -> Answer
    requires { start + length s.now < 2 ^ 64 }
    ensures { result ≡ answer_at n start (field_verdict currency n before.now s.now) }
{
    let verdict = slip_fields::judge_field(currency, n, before, s);
    verdict::answer_of(verdict, n, start + verdict::byte_of(verdict))
}

// The fields in order, up to the first refusal, each from line feed to line feed.
fn judge_fields(currency: Currency, s: &[u8]) -> Answer
    ensures { result ≡ fields_answer currency 1 0 [] (split 10 s.now) }
{
    let mut n: usize = 1;
    let mut before: usize = 0;
    let mut end: usize = 0;
    let mut at: usize = 0;
    while let Some(i) = text::first_bad(Class::Line, &s[at..]) {
        let stop = at + i;
        judge_one(currency, n, at, &s[before..end], &s[at..stop])?;
        before = at;
        end = stop;
        at = stop + 1;
        n += 1;
    }
    Ok(())
}

// A slip in a currency: 1, 2, then its fields in order, each refusal with its field and byte.
#[tactic(auto, unfolding(crate::specs::Slip::slip_answer_in))]
pub fn read_in(currency: Currency, s: &[u8]) -> Answer
    ensures { result ≡ slip_answer_in currency s.now }
{
    if 483 < s.len() {
        return Err(Refusal::Size(refusal::nowhere()));
    }
    if !ends_right(s) {
        return Err(Refusal::Ends(refusal::nowhere()));
    }
    judge_fields(currency, s)
}

// A euro slip, document 01's.
pub fn read(s: &[u8]) -> Answer
    ensures { result ≡ slip_answer s.now }
{
    read_in(Currency::Euro, s)
}
