// Registers as they are read: a field outside its layout counts as 0.
ghost use Rattle.std.specs.Prelude.{◌≡◌};
ghost use Rattle.registers.specs.Layout.{field, system_in_layout, display_in_layout, form_in_layout, overlay_in_layout, in_layout};

use crate::{CursorForm, Display, Overlay, Registers, System};

// The value v of a field, 0 where it is not below the limit.
#[tactic(auto, unfolding(crate::specs::Layout::field))]
fn read_field(limit: u8, v: u8) -> u8
    ensures { result ≡ field limit v }
{
    if v < limit { v } else { 0 }
}

impl System {
    pub(crate) fn in_layout(mut self) -> System
        ensures { result ≡ system_in_layout self }
    {
        self.fx.0 = read_field(16, self.fx.0);
        self.fy.0 = read_field(16, self.fy.0);
        self
    }
}

impl Display {
    pub(crate) fn in_layout(mut self) -> Display
        ensures { result ≡ display_in_layout self }
    {
        self.fp = read_field(64, self.fp);
        self.fc = read_field(4, self.fc);
        self
    }
}

impl CursorForm {
    pub(crate) fn in_layout(mut self) -> CursorForm
        ensures { result ≡ form_in_layout self }
    {
        self.crx.0 = read_field(16, self.crx.0);
        self.cry.0 = read_field(16, self.cry.0);
        self
    }
}

impl Overlay {
    pub(crate) fn in_layout(mut self) -> Overlay
        ensures { result ≡ overlay_in_layout self }
    {
        self.mx = read_field(4, self.mx);
        self
    }
}

impl Registers {
    #[tactic(auto, unfolding(crate::specs::Layout::in_layout))]
    pub fn in_layout(mut self) -> Registers
        ensures { result ≡ in_layout self }
    {
        self.system = self.system.in_layout();
        self.display = self.display.in_layout();
        self.form = self.form.in_layout();
        self.overlay = self.overlay.in_layout();
        self.hdot = read_field(8, self.hdot);
        self.grey = read_field(3, self.grey);
        self
    }
}
