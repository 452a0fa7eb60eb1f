// Whether a file is text.
ghost use Rattle.std.specs.Prelude.{◌≡◌};
ghost use Rattle.dsv_token.specs.Text.{utf8_test};

use crate::refusal::FileRefusal;

/// Tests that the bytes are UTF-8. Where they aren't, the refusal has the end of the longest prefix
/// that is.
#[tactic(auto, using(crate::proofs::Texts::text_ok))]
pub fn check_text(bytes: &[u8]) -> Result<(), FileRefusal>
    ensures { result ≡ utf8_test bytes.now }
{
    match str::from_utf8(bytes) {
        Ok(_) => Ok(()),
        Err(fault) => Err(FileRefusal::Utf8 {
            at: fault.valid_up_to() as u64,
        }),
    }
}
