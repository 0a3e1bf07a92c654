// The fields of a line, as they are lent to a writer: one behind the other in one text, with the size of each.
//
// Document 01, "The wage file", the writer: "Each field is the bytes of its positions".
#![tactic(auto)]

ghost use Rattle.std.specs.Prelude.{◌≡◌, get_or, take, drop};
ghost use Rattle.lent_fields.specs.Fields.{given_of, behind, field_end, lent_whole};

// The size of a field; one that is not there is empty.
pub fn size_at(sizes: &[usize], i: usize) -> usize
    ensures { result ≡ get_or sizes.now i 0 }
{
    sizes.get(i).copied().unwrap_or(0)
}

// Where a field of a size ends that begins at a place: no later than the text.
pub fn end_of(text: &[u8], at: usize, size: usize) -> usize
    ensures { result ≡ field_end text.now at size }
{
    if text.len() < at {
        return text.len();
    }
    if text.len() - at < size {
        return text.len();
    }
    at + size
}

// The text behind the first fields.
pub fn text_behind<'a>(text: &'a [u8], sizes: &[usize], fields: usize) -> &'a [u8]
    ensures { result.now ≡ behind (take fields sizes.now) text.now }
{
    let mut at = 0;
    for size in sizes.iter().take(fields) {
        at = end_of(text, at, *size);
    }
    &text[at..]
}

// A field, counted from 0: what `sizes` gives it, as far as the text goes.
pub fn given<'a>(text: &'a [u8], sizes: &[usize], k: usize) -> &'a [u8]
    ensures { result.now ≡ given_of sizes.now text.now k }
{
    text::front(text_behind(text, sizes, k), size_at(sizes, k))
}

// Whether the sizes of as many fields are together the text's.
pub fn is_lent_whole(text: &[u8], sizes: &[usize], fields: usize) -> bool
    ensures { result ≡ lent_whole fields sizes.now text.now }
{
    let mut left = text.len();
    for size in sizes.iter().take(fields) {
        if left < *size {
            return false;
        }
        left -= *size;
    }
    left == 0
}

// The sizes behind the first four.
pub fn sizes_behind(sizes: &[usize]) -> &[usize]
    ensures { result.now ≡ drop 4 sizes.now }
{
    if sizes.len() < 4 {
        return &sizes[..0];
    }
    &sizes[4..]
}
