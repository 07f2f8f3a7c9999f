//! Lines by their shapes, without their ends.

ghost use Rattle.std.specs.Prelude.{◌++◌, ◌∷◌, decimal};
ghost use Rattle.kc_model.specs.Pen.{PenPuts};

use kc_model::{Pen, Sink};

/// A word and a name.
pub fn put_named<K: Sink>(pen: &mut Pen<K>, word: &[u8], name: &[u8])
    ensures { PenPuts K.written K.faults K.write_gives pen.old pen.new (word.now ++ 32 ∷ name.now) }
{
    pen.put(word);
    pen.put(b" ");
    pen.put(name);
}

/// A word and a number.
pub fn put_numeral<K: Sink>(pen: &mut Pen<K>, word: &[u8], number: u32)
    ensures { PenPuts K.written K.faults K.write_gives pen.old pen.new (word.now ++ 32 ∷ decimal number) }
{
    pen.put(word);
    pen.put(b" ");
    pen.put_number(number);
}

/// A word, a name and a number.
pub fn put_number<K: Sink>(pen: &mut Pen<K>, word: &[u8], name: &[u8], number: u32)
    ensures { PenPuts K.written K.faults K.write_gives pen.old pen.new (word.now ++ 32 ∷ (name.now ++ 32 ∷ decimal number)) }
{
    pen.put(word);
    pen.put(b" ");
    pen.put(name);
    pen.put(b" ");
    pen.put_number(number);
}

/// A word, a name and two numbers.
pub fn put_numbers<K: Sink>(pen: &mut Pen<K>, word: &[u8], name: &[u8], first: u32, second: u32)
    ensures { PenPuts K.written K.faults K.write_gives pen.old pen.new (word.now ++ 32 ∷ (name.now ++ 32 ∷ (decimal first ++ 32 ∷ decimal second))) }
{
    pen.put(word);
    pen.put(b" ");
    pen.put(name);
    pen.put(b" ");
    pen.put_number(first);
    pen.put(b" ");
    pen.put_number(second);
}

/// A word, a name, what was chosen and a number.
pub fn put_choice<K: Sink>(pen: &mut Pen<K>, word: &[u8], name: &[u8], choice: &[u8], number: u32)
    ensures { PenPuts K.written K.faults K.write_gives pen.old pen.new (word.now ++ 32 ∷ (name.now ++ 32 ∷ (choice.now ++ 32 ∷ decimal number))) }
{
    pen.put(word);
    pen.put(b" ");
    pen.put(name);
    pen.put(b" ");
    pen.put(choice);
    pen.put(b" ");
    pen.put_number(number);
}
