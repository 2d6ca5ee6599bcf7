// The last sequence number of each known device: at most 32.
ghost use Rattle.maps.specs.Keys.{device_key};
ghost use Rattle.maps.specs.Sequences.{no_sequence, sequence_key};

use crate::keys::{InputDeviceId, MapKey, device_key};
use crate::sorted_map::{Entry, SortedMap};
use lists::table::Blank;

#[repr(C)]
#[derive(Clone, Copy, PartialEq, Eq)]
pub struct DeviceSequence {
    pub device: InputDeviceId,
    pub sequence: u64,
}

impl Blank for DeviceSequence {
    ghost BLANK = { no_sequence };

    const BLANK: Self = Self {
        device: InputDeviceId {
            value: 0,
            generation: 0,
        },
        sequence: 0,
    };
}

impl Entry for DeviceSequence {
    type Key = InputDeviceId;
    // The last sequence number of the device.
    type Value = u64;

    ghost key_of = { sequence_key };

    ghost value_of = { λ e. e.sequence };

    ghost sought = { device_key };

    fn key(&self) -> MapKey {
        device_key(self.device)
    }

    fn value(&self) -> u64 {
        self.sequence
    }

    fn sought(device: InputDeviceId) -> MapKey {
        device_key(device)
    }
}

pub type DeviceSequences = SortedMap<DeviceSequence, 32>;
