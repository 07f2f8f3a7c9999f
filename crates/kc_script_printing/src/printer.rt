//! Printing a bundle.

ghost use Rattle.std.specs.Prelude.{ℕ, List};
ghost use Rattle.kc_model.specs.Pen.{Prints, PenPuts};
ghost use Rattle.kc_script_bundle.specs.Script.{script_of};
ghost use Rattle.kc_script.specs.Spells.{Spells};
ghost use Rattle.kc_script.specs.Canonical.{canonical_text, heading_lines, text_of_lines};

use crate::declared::put_declarations;
use crate::printing::put_threads;
use crate::shapes::put_numeral;
use kc_model::{Failed, MOST, Pen, Sink};
use kc_script_bundle::Bundle;

// The version, and the limit where it isn't the greatest.
fn put_heading<K: Sink>(pen: &mut Pen<K>, limit: u32)
    ensures { PenPuts K.written K.faults K.write_gives pen.old pen.new (text_of_lines (heading_lines limit)) }
{
    pen.put(b"kcas 2\n");
    if limit != MOST as u32 {
        put_numeral(pen, b"limit", limit);
        pen.put(b"\n");
    }
}

/// Writes the canonical text of a bundle that some bytes spell: one space between words, no line that is skipped, numbers
/// without leading zeros. It spells the bundle too. After a failed write no further one is made.
pub fn print<K: Sink>(bundle: &Bundle, sink: &mut K) -> Result<(), Failed>
    requires { (bytes : List ℕ) × Spells bytes (script_of bundle.now) }
    ensures { Prints K.written K.faults K.write_gives sink.old sink.new result (canonical_text (script_of bundle.now)) }
{
    let mut pen = Pen::new(sink);
    put_heading(&mut pen, bundle.limit);
    put_declarations(&mut pen, &bundle.objects);
    put_threads(&mut pen, &bundle.objects, &bundle.threads);
    pen.end()
}
