// The numbers of open presses and of known devices.
ghost use Rattle.std.specs.Prelude.{◌≡◌};
ghost use Rattle.maps.specs.Bindings.{key_of_binding};
ghost use Rattle.answer_numbers.specs.Writers.{written};
ghost use Rattle.answer_numbers.specs.Presses.{device_numbers, device_key_numbers, key_numbers, press_numbers, presses_numbers, sequence_numbers};

use crate::numbered::{Grouped, Numbered, write_group};
use crate::writer::Writer;
use maps::bindings::{Binding, Bindings};
use maps::keys::{BindingKey, DeviceKey, InputDeviceId, binding_key};
use maps::sequences::DeviceSequence;

impl Numbered for InputDeviceId {
    ghost numbers = { device_numbers };

    fn write(&self, to: &mut Writer<'_>) {
        self.value.write(to);
        self.generation.write(to);
    }
}

impl Numbered for DeviceKey {
    ghost numbers = { device_key_numbers };

    fn write(&self, to: &mut Writer<'_>) {
        self.device.write(to);
        self.physical_key.write(to);
    }
}

impl Numbered for BindingKey {
    ghost numbers = { key_numbers };

    fn write(&self, to: &mut Writer<'_>) {
        match self {
            BindingKey::Pointer(pointer) => pointer.write(to),
            BindingKey::Key(key) => key.write(to),
            BindingKey::Gamepad(device) => device.write(to),
        }
    }
}

impl Numbered for Binding {
    ghost numbers = { press_numbers };

    fn write(&self, to: &mut Writer<'_>) {
        self.key.write(to);
        self.surface.write(to);
    }
}

impl Grouped for Binding {
    ghost group = { λ e. (key_of_binding e).kind };

    fn group(&self) -> usize {
        binding_key(self.key).kind as usize
    }
}

// The presses of a kind, by rising key.
pub fn write_presses(presses: &Bindings, kind: u32, to: &mut Writer<'_>)
    ensures { to.new ≡ written (presses_numbers kind presses.now) to.old }
{
    write_group(presses.entries(), kind as usize, to);
}

impl Numbered for DeviceSequence {
    ghost numbers = { sequence_numbers };

    fn write(&self, to: &mut Writer<'_>) {
        self.device.write(to);
        self.sequence.write(to);
    }
}
