// What a text is made of: bytes, numbers and names, each put at the end.
ghost use Rattle.std.specs.Prelude.{◌≡◌, ◌++◌, OnOk};
ghost use Rattle.ct_answer.specs.Text as spec;

use ct_mono::NoMemory;
use ct_ore::Algebra;
use itoa::{Buffer, Integer};

/// Puts bytes at the end of a text.
pub fn push(out: &mut Vec<u8>, text: &[u8]) -> Result<(), NoMemory>
    ensures value { OnOk result (out.new.items ≡ out.old.items ++ text.now) }
{
    out.extend_from_slice(text)
}

/// Puts a number at the end of a text, by its decimal digits.
pub fn push_number<I: Integer>(out: &mut Vec<u8>, n: I) -> Result<(), NoMemory>
    ensures value { OnOk result (out.new.items ≡ out.old.items ++ I.text n) }
{
    let mut buffer = Buffer::new();
    push(out, buffer.format(n).as_bytes())
}

/// Puts a name at the end of a text. A name past those of the algebra has no letters.
pub fn push_name(out: &mut Vec<u8>, algebra: &Algebra, name: u8) -> Result<(), NoMemory>
    ensures value { OnOk result (out.new.items ≡ out.old.items ++ spec.name_text (spec.naming_at algebra.now name)) }
{
    if name >= algebra.count() {
        return Ok(());
    }
    push(out, algebra.info(name).text.as_bytes())
}
