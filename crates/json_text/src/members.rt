//! Members of objects: a key, and its value behind it.
ghost use Rattle.std.specs.Prelude.{◌≡◌, pos, OnOk};
ghost use Rattle.json_text.specs.Values.{tenths, text, whole};
ghost use Rattle.json_text.specs.Drafts.{TakesKey};
ghost use Rattle.json_text.specs.Wholes.{with_member};

use crate::writer::Json;
use std::alloc::AllocError;

impl Json {
    /// A member that is a text. After an `Err` its key may stand.
    pub fn text_member(&mut self, name: &str, t: &str) -> Result<(), AllocError>
        requires { TakesKey self.old }
        ensures ok { OnOk result (self.new ≡ with_member name.now (text t.now) self.old) }
        ensures more { OnOk result (TakesKey self.new) }
    {
        self.key(name)?;
        self.text(t)?;
        Ok(())
    }

    /// A member that is a whole number and isn't below 0. After an `Err` its key may stand.
    pub fn count_member(&mut self, name: &str, n: u128) -> Result<(), AllocError>
        requires { TakesKey self.old }
        ensures ok { OnOk result (self.new ≡ with_member name.now (whole (pos n)) self.old) }
        ensures more { OnOk result (TakesKey self.new) }
    {
        self.key(name)?;
        self.count(n)?;
        Ok(())
    }

    /// A member that is so many tenths, with one decimal. After an `Err` its key may stand.
    pub fn tenths_member(&mut self, name: &str, n: u128) -> Result<(), AllocError>
        requires { TakesKey self.old }
        ensures ok { OnOk result (self.new ≡ with_member name.now (tenths n) self.old) }
        ensures more { OnOk result (TakesKey self.new) }
    {
        self.key(name)?;
        self.tenths(n)?;
        Ok(())
    }
}
