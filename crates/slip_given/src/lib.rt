// The fields 4 to 14 that a writer of slips is given, judged in their order, in euro: "only euro slips are written".
//
// Document 01, "The slip's fourteen fields": the writer refuses as the reader does, so each field is judged by the same
// name, `slip_fields::judge_field`; a refusal is told of the field, the byte of a 3 counted within it.
#![tactic(auto)]

ghost use Rattle.std.specs.Prelude.{◌≡◌, [], ◌∷◌};
ghost use Rattle.slip_given.specs.Given.{given_answer, texts};

use refusal::Answer;
use slip_fields::Currency;

// Field n, after the field `before` it: a refusal is told of the field.
fn judge_one(n: usize, before: &[u8], s: &[u8]) -> Answer
    ensures { result ≡ given_answer n before.now (s.now ∷ []) }
{
    verdict::told_in(slip_fields::judge_field(Currency::Euro, n, before, s), n)
}

// The fields 4 to 14, each after the one before it.
pub fn judge_given(fields: &[&[u8]; 11]) -> Answer
    ensures { result ≡ given_answer 4 [] (texts fields.now) }
{
    let mut before: &[u8] = b"";
    for (i, s) in fields.iter().enumerate() {
        judge_one(i + 4, before, s)?;
        before = s;
    }
    Ok(())
}
