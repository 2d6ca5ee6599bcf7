// The numbers of traces.
ghost use Rattle.answer_numbers.specs.Traces.{delivery_numbers, trace_numbers};

use crate::events::EventFields;
use crate::numbered::Numbered;
use crate::writer::Writer;
use records::trace::{CompositionTrace, InputDelivery};

impl Numbered for InputDelivery {
    ghost numbers = { delivery_numbers };

    fn write(&self, to: &mut Writer<'_>) {
        self.surface.write(to);
        self.observed.write(to);
    }
}

impl Numbered for CompositionTrace {
    ghost numbers = { trace_numbers };

    fn write(&self, to: &mut Writer<'_>) {
        self.revision.write(to);
        self.view.write(to);
        EventFields::from(self.event).write(to);
        self.hits.write(to);
        self.deliveries.write(to);
        self.consumed_by.write(to);
    }
}
