// Columns: an entry for each element.
ghost use Rattle.std.specs.Prelude.{◌≡◌, IfOk};

use crate::copies::copied;
use ct_frac::Frac;
use ct_mono::NoMemory;
use std::alloc::Global;
use std::marker::Model;

/// A column, seen as the list of its entries.
#[derive(Drop)]
pub struct Column {
    pub entries: Vec<Frac>,
}

impl Model for Column {
    ghost use Rattle.std.specs.Coded.{coded_list};
    ghost use Rattle.std.specs.Prelude.{List};
    ghost use Rattle.ct_frac.specs.Written.{Written, written_code};

    ghost Value = { List Written };

    ghost coded = { coded_list written_code };

    ghost view = { λ c. c.entries.items };
}

impl Column {
    pub fn entries(&self) -> &[Frac]
        ensures { result.now ≡ self.now }
    {
        self.entries.as_slice()
    }

    pub fn copy(&self, alloc: Global) -> Result<Column, NoMemory>
        ensures value { IfOk result (λ c. c ≡ self.now) }
    {
        let entries = copied(alloc, self.entries())?;
        Ok(Column { entries })
    }
}
