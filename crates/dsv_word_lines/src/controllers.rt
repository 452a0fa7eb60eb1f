// Writes the words of controllers, with no memory.
ghost use Rattle.dsv_base.specs.Taking.{Writes};
ghost use Rattle.dsv_word_lines.specs.WordLines.{controller_lines, input_line, head_lines};

use crate::coefficients::put_coefficients;
use crate::lines::{is_cut, put_format_line, put_range_line};
use dsv_base::{Failed, Sink};
use dsv_quantiser::Quantised;
use dsv_reader::Controller;

/// Writes the range of the inputs.
fn put_inputs<K: Sink>(
    sink: &mut K,
    controller: &Controller,
    quantised: &Quantised,
) -> Result<(), Failed>
    ensures { Writes (K.seen sink.old) (K.seen sink.new) result
        (input_line controller.now quantised.now) }
{
    let lo = quantised.xlo();
    let hi = quantised.xhi();
    let cut = is_cut(
        quantised.format(),
        controller.min(),
        controller.max(),
        lo,
        hi,
    );
    put_range_line(sink, lo, hi, cut)
}

/// Writes the lines before the coefficients: the format, whether the accumulator is wide, and the
/// range of the inputs.
pub(crate) fn put_head<K: Sink>(
    sink: &mut K,
    controller: &Controller,
    quantised: &Quantised,
) -> Result<(), Failed>
    ensures { Writes (K.seen sink.old) (K.seen sink.new) result
        (head_lines controller.now quantised.now) }
{
    put_format_line(sink, quantised.format(), quantised.is_wide())?;
    put_inputs(sink, controller, quantised)
}

/// Writes the format of a controller's words, the range of its inputs, which its file says, and the
/// words of its coefficients. It takes no memory.
pub fn put_controller_lines<K: Sink>(
    sink: &mut K,
    controller: &Controller,
    quantised: &Quantised,
) -> Result<(), Failed>
    ensures { Writes (K.seen sink.old) (K.seen sink.new) result
        (controller_lines controller.now quantised.now) }
{
    put_head(sink, controller, quantised)?;
    put_coefficients(sink, quantised)
}
