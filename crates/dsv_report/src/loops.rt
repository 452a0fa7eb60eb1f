// Writes why there is no loop, with no memory.
ghost use Rattle.dsv_base.specs.Taking.{Writes};
ghost use Rattle.dsv_report.specs.LoopTexts.{plant_line, loop_refusal_text};

use dsv_base::{Failed, Sink, put_all};
use dsv_loop::LoopRefusal;

/// Writes that what follows is said of the plant's file.
pub(crate) fn put_plant<K: Sink>(sink: &mut K) -> Result<(), Failed>
    ensures { Writes (K.seen sink.old) (K.seen sink.new) result plant_line }
{
    put_all(sink, b"plant\n")
}

/// Writes why a controller and a plant have no loop.
pub(crate) fn put_loop_refusal<K: Sink>(sink: &mut K, refusal: LoopRefusal) -> Result<(), Failed>
    ensures { Writes (K.seen sink.old) (K.seen sink.new) result (loop_refusal_text refusal) }
{
    match refusal {
        LoopRefusal::Realisation => put_all(sink, b"LOOP REFUSED 65 REALISATION\n"),
        LoopRefusal::SampleTimes => put_all(sink, b"LOOP REFUSED 61 SAMPLE_TIME\n"),
        LoopRefusal::Algebraic => put_all(sink, b"LOOP REFUSED 62 ALGEBRAIC\n"),
    }
}
