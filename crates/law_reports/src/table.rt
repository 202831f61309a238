//! Table: rows of fields as text. A clause sees the bytes.

ghost use Rattle.std.specs.Prelude.{◌≡◌, ◌++◌, [], map, IfOk, OnOk};
ghost use Rattle.law_reports.specs.Tables.{IsOpen, row, written};

use csv::Writer;
use desk_base::Memory;
use std::alloc::Global;

/// A table that is being written: whole rows, one behind another. After an `Err` no row can be added any more.
#[derive(Drop)]
pub struct Table {
    writer: Writer<Vec<u8>>,
}

impl Table {
    /// A table with no rows. It takes no memory.
    pub fn new(alloc: Global) -> Table
        ensures rows { written result ≡ [] }
        ensures ready { IsOpen result }
    {
        Table {
            writer: Writer::from_writer(Vec::new(alloc)),
        }
    }

    /// Adds a row of these fields behind the others.
    pub fn add(&mut self, fields: &[&[u8]]) -> Result<(), Memory>
        requires { IsOpen self.old }
        ensures rows { OnOk result
            (written self.new ≡ written self.old ++ row (map (λ f. f.now) fields.now)) }
        ensures ready { OnOk result (IsOpen self.new) }
    {
        match self.writer.write_fields(fields) {
            Ok(()) => Ok(()),
            Err(_) => Err(Memory),
        }
    }

    /// The bytes of the rows.
    pub fn into_bytes(self) -> Result<Vec<u8>, Memory>
        ensures { IfOk result (λ bytes. bytes.items ≡ written self) }
    {
        match self.writer.into_inner() {
            Ok(bytes) => Ok(bytes),
            Err(_) => Err(Memory),
        }
    }
}
