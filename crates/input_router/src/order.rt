// The order of events: each device's sequence numbers rise, and the time does not fall.
ghost use Rattle.std.specs.Prelude.{◌≡◌};
ghost use Rattle.input_router.specs.Order.{is_old, has_place_with, order_with, order_of, recorded};

use crate::router::PlatformInputRouter;
use input_events::error::{PlatformInputError, RouterOutcome};
use maps::keys::InputDeviceId;
use maps::sequences::DeviceSequence;
use records::error::refuse_if;

fn is_old(last: Option<u64>, sequence: u64) -> bool
    ensures { result ≡ is_old last sequence }
{
    last.is_some_and(|number| sequence <= number)
}

// Whether a device with this last number is known, or a place is left for it beside the known devices.
fn has_place_with(last: Option<u64>, known: usize) -> bool
    ensures { result ≡ has_place_with last known }
{
    last.is_some() || known < 32
}

// The order of an event by what is found: its device's last number, how many devices are known, and the last time.
pub fn order_with(
    last: Option<u64>,
    known: usize,
    last_timestamp_micros: u64,
    sequence: u64,
    timestamp_micros: u64,
) -> RouterOutcome
    ensures { result ≡ order_with last known last_timestamp_micros sequence timestamp_micros }
{
    refuse_if(
        sequence == 0 || is_old(last, sequence),
        PlatformInputError::InvalidSequence,
    )?;
    refuse_if(
        timestamp_micros < last_timestamp_micros,
        PlatformInputError::InvalidTimestamp,
    )?;
    refuse_if(!has_place_with(last, known), PlatformInputError::PortLimit)
}

impl PlatformInputRouter {
    pub fn order_of(
        self,
        device: InputDeviceId,
        sequence: u64,
        timestamp_micros: u64,
    ) -> RouterOutcome
        ensures { result ≡ order_of self device sequence timestamp_micros }
    {
        order_with(
            self.device_sequences.get(device),
            self.device_sequences.count(),
            self.last_timestamp_micros,
            sequence,
            timestamp_micros,
        )
    }

    // The router with the sequence number and the time of an event, or as it came where the device has no place.
    pub fn recorded(self, device: InputDeviceId, sequence: u64, timestamp_micros: u64) -> Self
        ensures { result ≡ recorded self device sequence timestamp_micros }
    {
        match self
            .device_sequences
            .insert(DeviceSequence { device, sequence })
        {
            Some(sequences) => self
                .with_sequences(sequences)
                .with_timestamp(timestamp_micros),
            None => self,
        }
    }
}
