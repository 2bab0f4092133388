// A linear equation to its file.
ghost use Rattle.std.specs.Prelude.{◌≡◌, ◌≤◌, length, take, IfOk, Ok};
ghost use Rattle.words.specs.Words.{Bytes};
ghost use Rattle.linear.specs.Layout.{head_words, file_of};
ghost use Rattle.linear.specs.Reading.{linear_file};
ghost use Rattle.linear_write.specs.Laid.{topped, over, write_answer, write_leaves};
ghost use Rattle.linear_write.specs.Written.{written, after, HasRoom};

use crate::fault::WriteFault;
use crate::lengths::file_length;
use crate::writer::Writer;
use linear::{Equation, Table};

const VERSION: u8 = 1;

// The version byte and the length of the rest.
fn put_header(out: &mut [u8], rest: u32)
    requires room { 5 ≤ length out.old }
    ensures leaves { out.new ≡ topped out.old rest }
{
    let [a, b, c, d] = rest.to_be_bytes();
    out[..5].copy_from_slice(&[VERSION, a, b, c, d]);
}

impl<'a> Writer<'a> {
    // The sizes, the number of program counters and the first vector.
    fn put_head(&mut self, table: &Table)
        requires room { HasRoom (written self.old) (head_words table.now) }
        ensures leaves { written self.new ≡ after (written self.old) (head_words table.now) }
    {
        self.put_list(&table.sizes);
        self.put(table.counters);
        self.put(table.first.counter);
        self.put_words(table.first.values.as_slice());
    }
}

// The whole file, where there is room for it.
fn put_file(out: &mut [u8], table: &Table, needed: usize)
    requires length { needed ≡ length (file_of table.now) }
    requires room { needed ≤ length out.old }
    requires small { needed ≤ 110000 }
    ensures leaves { out.new ≡ over (file_of table.now) out.old }
    ensures bytes { Bytes out.new }
{
    put_header(out, (needed - 5) as u32);
    let mut writer = Writer::new(out);
    writer.put_head(table);
    writer.put_section(&table.actions);
    writer.put_section(&table.delays);
}

// Writes the file of an equation to the front of a buffer, and answers its length; where the buffer is too short,
// it is left as it was.
pub fn write(equation: &Equation, out: &mut [u8]) -> Result<usize, WriteFault>
    ensures answer { result ≡ write_answer (file_of equation.now.table) out.old }
    ensures leaves { out.new ≡ write_leaves (file_of equation.now.table) out.old }
    ensures trips { IfOk result (λ n. linear_file (take n out.new) ≡ Ok equation.now.table) }
{
    let needed = file_length(&equation.table);
    if out.len() < needed {
        return Err(WriteFault::Short);
    }
    put_file(out, &equation.table, needed);
    Ok(needed)
}
