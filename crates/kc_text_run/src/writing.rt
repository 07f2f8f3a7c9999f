//! Writing what was read.

ghost use Rattle.std.specs.Prelude.{◌++◌};
ghost use Rattle.std.specs.List.{flat_map};
ghost use Rattle.kc_model.specs.Pen.{Prints, PenPuts};
ghost use Rattle.kc_text_files.specs.Files.{file_line};

use kc_model::{Failed, Pen, Sink};
use kc_text::Text;

/// Writes these texts, and then those, each with a newline. After a failed write no further one is made.
pub fn write_lines<K: Sink>(front: &[Text], back: &[Text], sink: &mut K) -> Result<(), Failed>
    ensures { Prints K.written K.faults K.write_gives sink.old sink.new result (flat_map file_line front.now ++ flat_map file_line back.now) }
{
    let mut pen = Pen::new(sink);
    put_lines(&mut pen, front);
    put_lines(&mut pen, back);
    pen.end()
}

fn put_lines<K: Sink>(pen: &mut Pen<K>, lines: &[Text])
    ensures { PenPuts K.written K.faults K.write_gives pen.old pen.new (flat_map file_line lines.now) }
{
    for i in 0..lines.len() {
        put_line(pen, &lines[i]);
    }
}

fn put_line<K: Sink>(pen: &mut Pen<K>, line: &Text)
    ensures { PenPuts K.written K.faults K.write_gives pen.old pen.new (file_line line.now) }
{
    pen.put(line.bytes());
    pen.put(b"\n");
}
