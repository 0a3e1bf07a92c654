// Wet slips: the calls of `desk_wet`, exported.

ghost use Rattle.std.specs.Prelude.{◌≡◌, length};
ghost use Rattle.account.specs.Answers.{is_iban};
ghost use Rattle.fillings.specs.Fillings.{fillings};
ghost use Rattle.wet.specs.Wet.{iban_listing, reference_listing, reference_fillings};
ghost use Rattle.fillings.specs.Answers.{left_by_listing};
ghost use Rattle.filling.specs.Filling.{filled_answer, filled_by};
ghost use Rattle.boundary.specs.Told.{told_of, value_told};

use boundary::{Told, Valued};

// Lists the fillings of an IBAN; the value is their count.
#[unsafe(no_mangle)]
pub extern "C" fn lanecockle_list_iban(text: &[u8], out: &mut [u16]) -> Valued
    ensures { (result ≡ value_told (iban_listing text.now (length out.old))) × (out.new ≡ left_by_listing (iban_listing text.now (length out.old)) (fillings is_iban text.now) out.old) }
{
    desk_wet::lanecockle_list_iban(text, out)
}

// Lists the fillings of a reference under its model; the value is their count.
#[unsafe(no_mangle)]
pub extern "C" fn lanecockle_list_reference(model: &[u8], text: &[u8], out: &mut [u16]) -> Valued
    ensures { (result ≡ value_told (reference_listing model.now text.now (length out.old))) × (out.new ≡ left_by_listing (reference_listing model.now text.now (length out.old)) (reference_fillings model.now text.now) out.old) }
{
    desk_wet::lanecockle_list_reference(model, text, out)
}

// Writes the text filled by a number at the front of `out`.
#[unsafe(no_mangle)]
pub extern "C" fn lanecockle_filled(text: &[u8], number: u16, out: &mut [u8]) -> Told
    ensures { (result ≡ told_of (filled_answer text.now (length out.old))) × (out.new ≡ filled_by (filled_answer text.now (length out.old)) text.now number out.old) }
{
    desk_wet::lanecockle_filled(text, number, out)
}
