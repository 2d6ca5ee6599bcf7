// The keys of the maps: pointers, device keys and devices, and the one order of them all.
ghost use Rattle.std.specs.Prelude.{◌≡◌};
ghost use Rattle.maps.specs.Keys.{pointer_valid, device_valid, pointer_key, device_key, binding_key};
ghost use Rattle.maps.specs.Keys.{device_same};

// A pointer: a contact of a device.
#[repr(C)]
#[derive(Clone, Copy, PartialEq, Eq, PartialOrd, Ord)]
pub struct CompositionPointerId {
    pub device: u64,
    pub device_generation: u32,
    pub contact: u32,
}

impl CompositionPointerId {
    // The pointer of the view's single capture field.
    pub const PRIMARY: Self = Self {
        device: 1,
        device_generation: 1,
        contact: 0,
    };

    pub fn is_valid(self) -> bool
        ensures { result ≡ pointer_valid self }
    {
        self.device != 0 && self.device_generation != 0 && self.contact != 4294967295
    }
}

#[repr(C)]
#[derive(Clone, Copy, PartialEq, Eq, PartialOrd, Ord)]
pub struct InputDeviceId {
    pub value: u64,
    pub generation: u32,
}

impl InputDeviceId {
    pub fn is_valid(self) -> bool
        ensures { result ≡ device_valid self }
    {
        self.value != 0 && self.generation != 0
    }
}

// A key of a device.
#[derive(Clone, Copy, PartialEq, Eq, PartialOrd, Ord)]
pub struct DeviceKey {
    pub device: InputDeviceId,
    pub physical_key: u32,
}

// What an open press is a press of.
#[derive(Clone, Copy, PartialEq, Eq, PartialOrd, Ord)]
pub enum BindingKey {
    Pointer(CompositionPointerId),
    Key(DeviceKey),
    Gamepad(InputDeviceId),
}

// A key of any kind as numbers: the kind, the device with its generation, and the contact or key.
#[repr(C)]
#[derive(Clone, Copy, PartialEq, Eq, PartialOrd, Ord)]
pub struct MapKey {
    pub kind: u32,
    pub device: u64,
    pub generation: u32,
    pub code: u32,
}

pub fn pointer_key(pointer: CompositionPointerId) -> MapKey
    ensures { result ≡ pointer_key pointer }
{
    MapKey {
        kind: 0,
        device: pointer.device,
        generation: pointer.device_generation,
        code: pointer.contact,
    }
}

pub fn device_key(device: InputDeviceId) -> MapKey
    ensures { result ≡ device_key device }
{
    MapKey {
        kind: 2,
        device: device.value,
        generation: device.generation,
        code: 0,
    }
}

pub fn binding_key(key: BindingKey) -> MapKey
    ensures { result ≡ binding_key key }
{
    match key {
        BindingKey::Pointer(pointer) => pointer_key(pointer),
        BindingKey::Key(key) => MapKey {
            kind: 1,
            device: key.device.value,
            generation: key.device.generation,
            code: key.physical_key,
        },
        BindingKey::Gamepad(device) => device_key(device),
    }
}

// Whether a key is of a device.
pub fn of_device(key: MapKey, device: InputDeviceId) -> bool
    ensures { result ≡ device_same key device }
{
    key.device == device.value && key.generation == device.generation
}
