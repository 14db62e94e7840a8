// The next line of the text, and its fields.
ghost use Rattle.std.specs.Prelude.{◌≡◌, IfOk, OnOk};
ghost use Rattle.text.specs.Keys.{content};
ghost use Rattle.reader.specs.Chain.{map_ok};
ghost use Rattle.reader.specs.Entries.{line_at, due_line};
ghost use Rattle.reader.specs.Moves.{PastLine};

use crate::reader::{Fields, Reader};
use faults::{FieldFault, LineFault};
use text::{Key, count, cut, value};

impl<'a> Reader<'a> {
    // The next line, without its byte 10. The reader goes on past it.
    pub(crate) fn next_line(&mut self) -> Result<&'a [u8], LineFault>
        ensures value { content result ≡ line_at self.old.line self.old.rest.now }
        ensures past { OnOk result (PastLine self.old self.new) }
    {
        let (line, rest) = cut(self.rest, b'\n');
        if line.len() < self.rest.len() {
            self.rest = rest;
            self.line += 1;
            Ok(line)
        } else {
            Err(LineFault::Missing(self.line))
        }
    }

    // The fields of the next line, which has to have the due key and so many commas between its fields.
    #[tactic(auto, unfolding(crate::specs::Entries::due_line))]
    pub(crate) fn due_line(&mut self, due: Key, commas: usize) -> Result<Fields<'a>, LineFault>
        ensures value { map_ok (λ r. r.rest.now) result ≡ due_line self.old.line due commas self.old.rest.now }
        ensures place { IfOk result (λ r. r.line ≡ self.old.line) }
        ensures past { OnOk result (PastLine self.old self.new) }
    {
        let number = self.line;
        let line = self.next_line()?;
        let fields = value(line, due, number)?;
        if count(fields, b',') != commas {
            return Err(LineFault::Field(FieldFault::Form(number)));
        }
        Ok(Fields {
            rest: fields,
            line: number,
        })
    }
}
