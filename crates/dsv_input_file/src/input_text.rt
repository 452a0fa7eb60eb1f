// Reading the text of inputs.
ghost use Rattle.std.specs.Prelude.{◌≡◌, ◌≤◌, ◌+◌, ◌<◌, ◌^◌, ◌⊎◌, length};
ghost use Rattle.std.specs.Prelude.{Ok, Err, IfOk, OnOk, IfErr};
ghost use Rattle.dsv_input_file.specs.declared.refusal.InputsEnd.TheVariants as end;
ghost use Rattle.dsv_input_file.specs.declared.refusal.InputsRefusal.{InputsRefusal};
ghost use Rattle.dsv_input_file.specs.InputTexts.{is_between, line_after, piece_of, number_after};
ghost use Rattle.dsv_input_file.specs.InputTexts.{numbers_from, inputs_in, most_file_inputs};

use crate::refusal::{InputsEnd, InputsRefusal};
use dsv_base::WordList;
use dsv_command::find_input;
use dsv_text::is_blank;
use std::alloc::Global;

/// The most numbers of a text.
pub const MOST_FILE_INPUTS: usize = 65_536;

/// Whether the byte stands between numbers.
fn is_between(byte: u8) -> bool
    ensures { result ≡ is_between byte }
{
    is_blank(byte) || byte == b','
}

/// The line of the byte after this one, which is in that line.
fn line_after(byte: u8, line: u64) -> u64
    requires { line < 2 ^ 63 }
    ensures value { result ≡ line_after byte line }
    ensures next { result ≤ line + 1 }
{
    if byte == b'\n' { line + 1 } else { line }
}

/// The number of the piece in this line, which stands after so many numbers.
fn number_after(count: usize, line: u64, text: &[u8]) -> Result<i64, InputsRefusal>
    ensures { result ≡ number_after count (record { line = line; text = text.now }) }
{
    if count == MOST_FILE_INPUTS {
        return Err(InputsRefusal::Many);
    }
    find_input(text).ok_or(InputsRefusal::Number { line })
}

/// Adds the number of the piece in this line, where the piece has bytes.
fn put_piece(found: &mut WordList, line: u64, text: &[u8]) -> Result<(), InputsEnd>
    requires { length found.old ≤ most_file_inputs }
    ensures number { OnOk result
        (numbers_from (piece_of line text.now) found.old ≡ Ok found.new) }
    ensures few { OnOk result (length found.new ≤ most_file_inputs) }
    ensures refused { IfErr result (λ e. (e ≡ end.NoMemory) ⊎ ((r : InputsRefusal)
        × (e ≡ end.Refused r) × (numbers_from (piece_of line text.now) found.old ≡ Err r))) }
{
    if text.is_empty() {
        return Ok(());
    }
    let number = number_after(found.len(), line, text)?;
    found.push(number)?;
    Ok(())
}

/// The inputs of a text: 1 to 65,536 whole numbers, each an optional `-` before 1 to 15 digits.
/// Between numbers stand blanks and commas, any number of them, also before the first and after the
/// last.
///
/// # Errors
///
/// `Refused` at the first piece that is no number or one too many, and where there is no number;
/// `NoMemory` where there is none for the list.
pub fn read_inputs(alloc: Global, bytes: &[u8]) -> Result<WordList, InputsEnd>
    ensures list { IfOk result (λ found. inputs_in bytes.now ≡ Ok found) }
    ensures few { IfOk result (λ found. length found ≤ most_file_inputs) }
    ensures refused { IfErr result (λ e. (e ≡ end.NoMemory) ⊎ ((r : InputsRefusal)
        × (e ≡ end.Refused r) × (inputs_in bytes.now ≡ Err r))) }
{
    let mut found = WordList::new(alloc);
    let mut line = 1;
    let mut start = 0;
    for (i, byte) in bytes.iter().enumerate() {
        if is_between(*byte) {
            put_piece(&mut found, line, &bytes[start..i])?;
            line = line_after(*byte, line);
            start = i + 1;
        }
    }
    put_piece(&mut found, line, &bytes[start..])?;
    if found.is_empty() {
        return Err(InputsEnd::Refused(InputsRefusal::NoNumbers));
    }
    Ok(found)
}
