// Where columns come from.
ghost use Rattle.ct_checked.specs.Checked.{Answers};
ghost use Rattle.ct_module.specs.Columns.{IsKeyOf, checked_column};

use crate::calls;
use crate::column::Column;
use crate::key::Key;
use crate::setting::Setting;
use ct_mono::Fault;
use std::alloc::Global;

/// Whoever answers the columns of a setting: it computes each, or keeps them.
pub trait NfSource {
    ghost use Rattle.ct_checked.specs.Checked.{Answers};
    ghost use Rattle.ct_module.specs.Columns.{IsKeyOf, checked_column};
    ghost use Rattle.ct_module.specs.Modules.{WrittenSetting};

    /// What its columns are those of.
    ghost setting: { Self → WrittenSetting };

    fn column(&self, alloc: Global, key: &Key) -> Result<Column, Fault>
        requires { IsKeyOf (setting self.now) key.now }
        ensures { Answers (checked_column (setting self.now) key.now) result };
}

/// The source that computes every column.
#[derive(Drop)]
pub struct Plain {
    pub setting: Setting,
}

impl NfSource for Plain {
    ghost setting = { λ plain. plain.setting };

    fn column(&self, alloc: Global, key: &Key) -> Result<Column, Fault> {
        calls::column(alloc, &self.setting, key)
    }
}
